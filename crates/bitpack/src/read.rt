// What the words of a line write.
ghost use Rattle.std.specs.Prelude.{◌≡◌, ◌^◌, ◌<◌, ◌≤◌, slice_set};
ghost use Rattle.lines.specs.Left.{left};
ghost use Rattle.lines.specs.Problems.{viewed, Gives};
ghost use Rattle.bitpack.specs.Answers.{number_of, numbers_of, bytes_in};

use crate::problem::Problem;
use hex_digits::read_hex;
use lines::failure::Failure;
use lines::words::LineWords;
use packing::{Packed, Width};
use std::alloc::Global;
use words::Word;

// The number of d bits that a word writes.
#[tactic(auto, using(crate::proofs::Parsed::parse_steps))]
fn number(word: &str, d: usize) -> Result<u32, Problem>
    requires { d ≤ 31 }
    ensures { result ≡ number_of d word.now }
{
    let x = word.parse::<u32>()?;
    if x >> d == 0 {
        Ok(x)
    } else {
        Err(Problem::TooLarge)
    }
}

// Puts a number at place n of a row, if it has one.
#[tactic(auto, using(crate::proofs::Gathered::stored_steps))]
fn put<W: Word>(f: &mut [W; 256], n: usize, x: u32)
    requires { x < 2 ^ W.bits }
    ensures { W.numbers f.new ≡ slice_set (W.numbers f.old) n x }
{
    if n < 256 {
        f[n] = W::narrow(x);
    }
}

// Reads 256 numbers of d bits each. The count is kept by hand since it is wanted after the loop, where `enumerate` has none; numbers past
// the 256th are counted and not kept, where a `Vec` would grow with the line.
#[tactic(auto, using(crate::proofs::Gathered::gathered_steps))]
fn read_numbers<W: Packed>(
    words: LineWords<'_>,
    w: Width<W>,
    f: &mut [W; 256],
) -> Result<(), Problem>
    ensures { viewed (λ _. W.numbers f.new) result ≡ numbers_of w.bits (left words.entry) }
{
    let mut n: usize = 0;
    for word in words {
        let x = number(word, w.bits)?;
        put(f, n, x);
        n += 1;
    }
    if n == 256 {
        Ok(())
    } else {
        Err(Problem::Numbers(n))
    }
}

// The 256 numbers that the words write.
pub fn numbers<W: Packed>(words: LineWords<'_>, w: Width<W>) -> Result<[W; 256], Problem>
    ensures { viewed W.numbers result ≡ numbers_of w.bits (left words.entry) }
{
    let mut f = [W::narrow(0); 256];
    read_numbers(words, w, &mut f)?;
    Ok(f)
}

// The bytes that the next word writes, as many as are wanted.
pub fn bytes(
    heap: Global,
    mut words: LineWords<'_>,
    want: usize,
) -> Result<Vec<u8>, Failure<Problem>>
    ensures { Gives (λ v. v.items) result (bytes_in want (left words.entry)) }
{
    let word = words.next().ok_or(Problem::Usage)?;
    let bs = read_hex(heap, word.as_bytes())?.ok_or(Problem::NotHex)?;
    if bs.len() == want {
        Ok(bs)
    } else {
        Err(Failure::Problem(Problem::Bytes(bs.len(), want)))
    }
}
