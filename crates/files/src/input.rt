// What a program reads of a file.
ghost use Rattle.std.specs.Prelude.{◌≡◌, ◌+◌, IfOk, IfSome, take};
ghost use Rattle.files.specs.Texts.{most_text};

use crate::texts::MOST_TEXT;
use std::alloc::Global;
use std::io::{self, Read};

// How many characters are asked for at once.
const BLOCK: usize = 4096;

// The text of an input, up to a character more than is taken; nothing, if a read fails. Want of memory is passed on.
// It is read in blocks that are copied over: read into the text itself, a full one would have to grow before the read that finds the end.
// The block with which the text becomes too long is read whole too, and then cut.
pub fn read<R: Read + Drop>(heap: Global, mut input: R) -> io::Result<Option<Vec<u8>>>
    ensures { IfOk result (λ text. IfSome text (λ v. IfSome (R.remaining input) (λ all. v.items ≡ take (most_text + 1) all))) }
{
    let mut text = Vec::new(heap);
    let mut block = [0u8; BLOCK];
    while text.len() <= MOST_TEXT {
        match input.read(&mut block) {
            Ok(0) => break,
            Ok(n) => text.extend_from_slice(&block[..n])?,
            Err(_) => return Ok(None),
        }
    }
    text.truncate(MOST_TEXT + 1);
    Ok(Some(text))
}
