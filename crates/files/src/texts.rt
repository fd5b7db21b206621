// The words, files and lines of the programs.
ghost use Rattle.std.specs.Prelude.{◌≡◌, ℕ, true, false, List, ◌++◌, length, IfOk, MatchResult, OnOk, ◌≢◌, ◌||◌};
ghost use Rattle.standards.specs.Calls.{is_set};
ghost use Rattle.files.specs.Texts.{most_text, set_of, text_of, unreadable, bytes_in, fits, hex_line, refusal_line};
ghost use Rattle.files.specs.Problems.{IsRefusal, Answers};

use crate::problem::{Problem, UNREADABLE};
use hex_digits::{read_hex, write_hex};
use sets::types::Refusal;
use std::alloc::{AllocError, Global};

// The longest text that is taken: the digits of 4 MiB of bytes, and as much for spaces and line ends.
pub const MOST_TEXT: usize = 16777216;

// The number of the set that a word names. Its digit is the calls' number of a set.
pub fn set_number(word: &[u8]) -> Result<u8, Refusal>
    ensures { MatchResult result (λ n. (n ≡ set_of word.now) × (is_set n ≡ true)) (λ e. (e ≡ Refusal.NoSet) × (set_of word.now ≡ 0)) }
{
    match word {
        [c @ b'1'..=b'3'] => Ok(*c - b'0'),
        _ => Err(Refusal::NoSet),
    }
}

// The bytes of a file, if it can be read and is hexadecimal. Of a text that is too long there are none, and no length is right.
pub fn bytes(heap: Global, file: Option<&[u8]>) -> Result<Vec<u8>, Problem>
    ensures { MatchResult result
        (λ v. (unreadable (text_of file.entry) ≡ false) × (v.items ≡ bytes_in (text_of file.entry)))
        (λ p. IsRefusal p 7 (unreadable (text_of file.entry) ≡ true)) }
{
    let text = file.ok_or(Problem::Unreadable)?;
    if text.len() > MOST_TEXT {
        return Ok(Vec::new(heap));
    }
    read_hex(heap, text)?.ok_or(Problem::Unreadable)
}

// A file that is no longer than the program takes. Of one that is there are no bytes; where none would do, it is refused by this.
pub fn fits(file: Option<&[u8]>) -> Result<(), Refusal>
    ensures { MatchResult result (λ _. fits (text_of file.entry) ≡ true) (λ e. (e ≡ Refusal.Length) × (fits (text_of file.entry) ≡ false)) }
{
    match file {
        Some(text) if text.len() > MOST_TEXT => Err(Refusal::Length),
        _ => Ok(()),
    }
}

// The bytes of two files.
pub fn both(
    heap: Global,
    first: Option<&[u8]>,
    second: Option<&[u8]>,
) -> Result<(Vec<u8>, Vec<u8>), Problem>
    ensures { MatchResult result
        (λ f. (unreadable (text_of first.entry) || unreadable (text_of second.entry) ≡ false) × (f.0.items ≡ bytes_in (text_of first.entry)) × (f.1.items ≡ bytes_in (text_of second.entry)))
        (λ p. IsRefusal p 7 (unreadable (text_of first.entry) || unreadable (text_of second.entry) ≡ true)) }
{
    Ok((bytes(heap, first)?, bytes(heap, second)?))
}

// A seed or a coin: 32 bytes.
pub fn seed(bytes: &[u8]) -> Result<[u8; 32], Refusal>
    ensures { MatchResult result (λ s. (s ≡ bytes.now) × (length bytes.now ≡ 32)) (λ e. (e ≡ Refusal.Length) × (length bytes.now ≢ 32)) }
{
    <[u8; 32]>::try_from(bytes).map_err(|_| Refusal::Length)
}

// Adds a line of digits to a text.
pub fn hex_line(text: &mut Vec<u8>, bytes: &[u8]) -> Result<(), AllocError>
    ensures { OnOk result (text.new.items ≡ text.old.items ++ hex_line bytes.now) }
{
    write_hex(text, bytes)?;
    text.extend_from_slice(b"\n")?;
    Ok(())
}

// A line of digits.
pub fn one_line(heap: Global, a: &[u8]) -> Result<Vec<u8>, AllocError>
    ensures { IfOk result (λ v. v.items ≡ hex_line a.now) }
{
    let mut text = Vec::new(heap);
    hex_line(&mut text, a)?;
    Ok(text)
}

// Two lines of digits.
pub fn two_lines(heap: Global, a: &[u8], b: &[u8]) -> Result<Vec<u8>, AllocError>
    ensures { IfOk result (λ v. v.items ≡ hex_line a.now ++ hex_line b.now) }
{
    let mut text = one_line(heap, a)?;
    hex_line(&mut text, b)?;
    Ok(text)
}

// The line of a refusal.
pub fn refusal(heap: Global, n: u32) -> Result<Vec<u8>, AllocError>
    ensures { IfOk result (λ v. v.items ≡ refusal_line n) }
{
    Ok(format!(in heap; "no {n}\n")?.into_bytes())
}

// What is printed: the lines, or that of the refusal. Want of memory prints nothing, and is passed on.
pub fn told(heap: Global, lines: Result<Vec<u8>, Problem>) -> Result<Vec<u8>, AllocError>
    ensures { (text : List ℕ) → Answers lines text → IfOk result (λ v. v.items ≡ text) }
{
    match lines {
        Ok(text) => Ok(text),
        Err(Problem::Refused(r)) => refusal(heap, u32::from(r)),
        Err(Problem::Unreadable) => refusal(heap, UNREADABLE),
        Err(Problem::NoMemory(e)) => Err(e),
    }
}
