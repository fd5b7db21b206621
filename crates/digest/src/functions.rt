ghost use Rattle.std.specs.Prelude.{◌≡◌, ℕ, ◌+◌, ◌≤◌, false, T, length, IfOk, MatchOption};
ghost use Rattle.standards.specs.Lists.{table};
ghost use Rattle.digest.specs.Functions.{gives, hash_of};

use fips202::functions::Fips202;
use hash::{Hash, Reader};
use std::alloc::{AllocError, Global};
use std::str::FromStr;

// How much of a stream a line may ask for.
const MOST: usize = 1048576;

#[derive(Clone, Copy)]
pub enum Function {
    Sha3_256,
    Sha3_512,
    Shake128,
    Shake256,
}

// A word that is the name of none.
#[derive(Clone, Copy)]
pub struct NoSuchFunction;

impl FromStr for Function {
    ghost use Rattle.std.specs.Prelude.{◌≡◌, ◌≢◌, MatchResult};
    ghost use Rattle.digest.specs.Functions.{name_of};

    type Err = NoSuchFunction;

    ghost from_str_gives = { λ word r. MatchResult r (λ f. name_of f ≡ word) (λ _. (f : _) → name_of f ≢ word) };

    fn from_str(word: &str) -> Result<Function, NoSuchFunction> {
        match word {
            "sha3-256" => Ok(Function::Sha3_256),
            "sha3-512" => Ok(Function::Sha3_512),
            "shake128" => Ok(Function::Shake128),
            "shake256" => Ok(Function::Shake256),
            _ => Err(NoSuchFunction),
        }
    }
}

// The next n bytes of a stream.
fn read_out<R: Reader + Drop>(heap: Global, mut reader: R, n: usize) -> Result<Vec<u8>, AllocError>
    ensures { IfOk result (λ v. v.items ≡ table n (R.Reader.rest reader)) }
{
    let mut out = vec![in heap; 0u8; n]?;
    reader.squeeze(&mut out);
    Ok(out)
}

// n bytes of a message's hash, or nothing where the function does not give that many.
pub fn hashed(heap: Global, f: Function, m: &[u8], n: usize) -> Result<Option<Vec<u8>>, AllocError>
    ensures { IfOk result (λ o. MatchOption o (gives f n ≡ false) (λ v. T (gives f n) × (v.items ≡ hash_of f m.now n))) }
{
    match f {
        Function::Sha3_256 if n == 32 => Vec::from_slice(heap, &Fips202::sha3_256(m)).map(Some),
        Function::Sha3_512 if n == 64 => Vec::from_slice(heap, &Fips202::sha3_512(m, &[])).map(
            Some,
        ),
        Function::Shake128 if n <= MOST => read_out(heap, Fips202::shake128(m, &[]), n).map(Some),
        Function::Shake256 if n <= MOST => read_out(heap, Fips202::shake256(m, &[]), n).map(Some),
        _ => Ok(None),
    }
}
