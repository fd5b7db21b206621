// What a line is answered.
ghost use Rattle.std.specs.Prelude.{◌≡◌, ◌*◌, length, IfOk, string_bytes};
ghost use Rattle.standards.specs.Bytes.{pack, unpack};
ghost use Rattle.hex_digits.specs.Hex.{hex_of};
ghost use Rattle.lines.specs.Left.{left};
ghost use Rattle.lines.specs.Problems.{Gives};
ghost use Rattle.bitpack.specs.Answers.{numbers_shown, pack_answer, unpack_answer, command_answer, answer_of};

use crate::problem::Problem;
use crate::read::{bytes, numbers};
use crate::width::{Scheme, width};
use hex_digits::hex_text;
use lines::failure::Failure;
use lines::words::LineWords;
use packing::{Packed, Width, pack, unpack};
use std::alloc::{AllocError, Global};
use std::fmt::Write;
use words::Word;

// Numbers as they are printed.
#[tactic(auto, using(crate::proofs::Printed::printed_steps))]
fn shown<W: Word>(heap: Global, f: &[W]) -> Result<String, AllocError>
    ensures { IfOk result (λ text. string_bytes text ≡ numbers_shown (W.numbers f.now)) }
{
    let Some((first, rest)) = f.split_first() else {
        return Ok(String::new(heap));
    };
    let mut text = format!(in heap; "{}", first.wide())?;
    for x in rest {
        write!(text, " {}", x.wide())?;
    }
    Ok(text)
}

// The digits of numbers packed.
fn packed<W: Packed>(heap: Global, w: Width<W>, f: &[W; 256]) -> Result<String, AllocError>
    ensures { IfOk result (λ text. string_bytes text ≡ hex_of (pack w.bits (W.numbers f.now))) }
{
    let mut out = vec![in heap; 0u8; 32 * w.bits]?;
    pack(w, f, &mut out);
    hex_text(heap, &out)
}

// The numbers in as many bytes.
fn unpacked<W: Packed>(w: Width<W>, bs: &[u8]) -> [W; 256]
    requires { length bs.now ≡ 32 * w.bits }
    ensures { W.numbers result ≡ unpack w.bits 256 bs.now }
{
    let mut f = [W::narrow(0); 256];
    unpack(w, bs, &mut f);
    f
}

// The answer to the numbers behind a width.
fn pack_line<W: Scheme>(
    heap: Global,
    w: Width<W>,
    words: LineWords<'_>,
) -> Result<String, Failure<Problem>>
    ensures { Gives string_bytes result (pack_answer w.bits (left words.entry)) }
{
    let f = numbers(words, w)?;
    Ok(packed(heap, w, &f)?)
}

// The answer to the digits behind a width.
fn unpack_line<W: Scheme>(
    heap: Global,
    w: Width<W>,
    words: LineWords<'_>,
) -> Result<String, Failure<Problem>>
    ensures { Gives string_bytes result (unpack_answer w.bits (left words.entry)) }
{
    let bs = bytes(heap, words, 32 * w.bits)?;
    Ok(shown(heap, &unpacked(w, &bs))?)
}

// The answer to `pack` or `unpack`, a width and what is behind it. The words are the program's commands: each arm is another call.
#[tactic(auto, unfolding(crate::specs::Answers::command_answer))]
fn command<W: Scheme>(heap: Global, mut words: LineWords<'_>) -> Result<String, Failure<Problem>>
    ensures { Gives string_bytes result (command_answer W.width W.OTHER_WIDTH (left words.entry)) }
{
    match (words.next(), words.next()) {
        (Some("pack"), Some(word)) => pack_line::<W>(heap, width(word)?, words),
        (Some("unpack"), Some(word)) => unpack_line::<W>(heap, width(word)?, words),
        _ => Err(Failure::Problem(Problem::Usage)),
    }
}

// The answer to a line. The schemes' names are commands too: each arm is a call at another type.
#[tactic(auto, unfolding(crate::specs::Answers::words_answer))]
pub fn answer(heap: Global, line: &str) -> Result<String, Failure<Problem>>
    ensures { Gives string_bytes result (answer_of line.now) }
{
    let mut words = LineWords::new(line);
    match words.next() {
        Some("kem") => command::<u16>(heap, words),
        Some("dsa") => command::<u32>(heap, words),
        _ => Err(Failure::Problem(Problem::Usage)),
    }
}
