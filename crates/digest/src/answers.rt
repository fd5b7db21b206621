// What a line is answered.
ghost use Rattle.std.specs.Prelude.{◌≡◌, IfOk, string_bytes};
ghost use Rattle.lines.specs.Problems.{number_in, Gives};
ghost use Rattle.digest.specs.Answers.{message_of, shown_of, reply_of, answer_of};
ghost use Rattle.digest.specs.declared.answers.Problem.TheVariants.{NoNumber};

use crate::functions::{Function, hashed};
use hex_digits::{hex_text, read_hex};
use lines::failure::Failure;
use lines::three_words;
use std::alloc::{AllocError, Global};
use std::fmt;

// What is wrong with a line. `Display` and `From` by hand: a derive of the kit's `thiserror` states neither the message nor which variant `From` makes.
#[derive(Clone, Copy)]
pub enum Problem {
    Usage,
    NoFunction,
    NotHex,
    NoNumber,
    Length,
}

impl fmt::Display for Problem {
    ghost use Rattle.std.specs.Prelude.{Some};
    ghost use Rattle.digest.specs.Answers.{text_of};

    ghost output = { λ problem. Some (text_of problem) };

    fn fmt<W: fmt::Write>(&self, f: &mut fmt::Formatter<W>) -> fmt::Result {
        f.write_str(match self {
            Problem::Usage => "a line is: FUNCTION MESSAGE BYTES",
            Problem::NoFunction => "the functions are sha3-256, sha3-512, shake128 and shake256",
            Problem::NotHex => "the message is not hexadecimal digits, an even number of them",
            Problem::NoNumber => "the number of bytes is not a number",
            Problem::Length => "the function does not give that many bytes",
        })
    }
}

// One `From<E> for Failure<E>` over any E would overlap with that of `AllocError`.
impl From<Problem> for Failure<Problem> {
    ghost use Rattle.lines.specs.declared.failure.Failure.TheVariants.{Problem};

    ghost from_gives = { λ problem failure. failure ≡ Problem problem };

    fn from(problem: Problem) -> Failure<Problem> {
        Failure::Problem(problem)
    }
}

// The message that a word writes.
fn message(heap: Global, word: &str) -> Result<Vec<u8>, Failure<Problem>>
    ensures { Gives (λ v. v.items) result (message_of word.now) }
{
    if word == "-" {
        return Ok(Vec::new(heap));
    }
    Ok(read_hex(heap, word.as_bytes())?.ok_or(Problem::NotHex)?)
}

// Bytes as they are printed.
fn shown(heap: Global, bytes: &[u8]) -> Result<String, AllocError>
    ensures { IfOk result (λ text. string_bytes text ≡ shown_of bytes.now) }
{
    if bytes.is_empty() {
        String::from_str(heap, "-")
    } else {
        hex_text(heap, bytes)
    }
}

// The number that a word writes.
#[tactic(auto, using(crate::proofs::Read::number_steps))]
fn number(word: &str) -> Result<usize, Problem>
    ensures { result ≡ number_in NoNumber 64 word.now }
{
    word.parse::<usize>().map_err(|_| Problem::NoNumber)
}

// The answer to three words.
#[tactic(auto, using(crate::proofs::Read::function_steps), unfolding(crate::specs::Answers::reply_of))]
fn reply(
    heap: Global,
    function: &str,
    digits: &str,
    count: &str,
) -> Result<String, Failure<Problem>>
    ensures { Gives string_bytes result (reply_of function.now digits.now count.now) }
{
    let f = function
        .parse::<Function>()
        .map_err(|_| Problem::NoFunction)?;
    let m = message(heap, digits)?;
    let n = number(count)?;
    let bytes = hashed(heap, f, &m, n)?.ok_or(Problem::Length)?;
    Ok(shown(heap, &bytes)?)
}

// The answer to a line.
pub fn answer(heap: Global, line: &str) -> Result<String, Failure<Problem>>
    ensures { Gives string_bytes result (answer_of line.now) }
{
    let (function, digits, count) = three_words(line).ok_or(Problem::Usage)?;
    reply(heap, function, digits, count)
}
