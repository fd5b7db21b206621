// What `kem` answers, over any hashes. A set goes on as its number, which the calls take: `set_number` has refused those that there are not, and
// `KemSet::try_from` looks up the lengths.
// Each command is a function of its own, with the answer that it promises; what they share is in `told` and `both`.
// Each command names its own two files, so they are parameters and no struct.
ghost use Rattle.std.specs.Prelude.{◌≡◌, IfOk};
ghost use Rattle.standards.specs.Hashes.{Hashes};
ghost use Rattle.files.specs.Texts.{text_of};
ghost use Rattle.files.specs.Kem.{call_keys, call_encaps, call_decaps, keys_answer, encaps_answer, decaps_answer};
ghost use Rattle.files.specs.Problems.{Answers};

use crate::problem::Problem;
use crate::texts::{both, one_line, seed, set_number, told, two_lines};
use hash::Hash;
use sets::types::KemSet;
use std::alloc::{AllocError, Global};
use suite::{Exchange, Over};

// The lines of a pair of keys.
fn call_keys<H: Hash>(heap: Global, set: u8, d: &[u8; 32], z: &[u8; 32]) -> Result<Vec<u8>, Problem>
    ensures { Answers result (call_keys H.Hash.hashes set d.now z.now) }
{
    let p = KemSet::try_from(set)?;
    let mut ek = vec![in heap; 0u8; p.ek_length()]?;
    let mut dk = vec![in heap; 0u8; p.dk_length()]?;
    Over::<H>::keys(set, d, z, ek.as_mut_slice(), dk.as_mut_slice())?;
    Ok(two_lines(heap, ek.as_slice(), dk.as_slice())?)
}

// The lines of a key and its ciphertext.
fn call_encaps<H: Hash>(heap: Global, set: u8, ek: &[u8], m: &[u8; 32]) -> Result<Vec<u8>, Problem>
    ensures { Answers result (call_encaps H.Hash.hashes set ek.now m.now) }
{
    let p = KemSet::try_from(set)?;
    let mut key = [0u8; 32];
    let mut text = vec![in heap; 0u8; p.text_length()]?;
    Over::<H>::encapsulate(set, ek, m, &mut key, text.as_mut_slice())?;
    Ok(two_lines(heap, &key, text.as_slice())?)
}

// The line of the key of a ciphertext.
fn call_decaps<H: Hash>(heap: Global, set: u8, dk: &[u8], c: &[u8]) -> Result<Vec<u8>, Problem>
    ensures { Answers result (call_decaps H.Hash.hashes set dk.now c.now) }
{
    let mut key = [0u8; 32];
    Over::<H>::decapsulate(set, dk, c, &mut key)?;
    Ok(one_line(heap, &key)?)
}

// The lines of `kem keys`, or the first cause of refusal: the set, the files, the lengths of the seeds, the call's own.
fn try_keys<H: Hash>(
    heap: Global,
    set: &[u8],
    d: Option<&[u8]>,
    z: Option<&[u8]>,
) -> Result<Vec<u8>, Problem>
    ensures { Answers result (keys_answer H.Hash.hashes set.now (text_of d.entry) (text_of z.entry)) }
{
    let n = set_number(set)?;
    let (d, z) = both(heap, d, z)?;
    let d = seed(d.as_slice())?;
    let z = seed(z.as_slice())?;
    call_keys::<H>(heap, n, &d, &z)
}

// The same of `kem encaps`. Only the coin's length comes before the call's own causes.
fn try_encaps<H: Hash>(
    heap: Global,
    set: &[u8],
    ek: Option<&[u8]>,
    m: Option<&[u8]>,
) -> Result<Vec<u8>, Problem>
    ensures { Answers result (encaps_answer H.Hash.hashes set.now (text_of ek.entry) (text_of m.entry)) }
{
    let n = set_number(set)?;
    let (ek, m) = both(heap, ek, m)?;
    let m = seed(m.as_slice())?;
    call_encaps::<H>(heap, n, ek.as_slice(), &m)
}

// The same of `kem decaps`. Each length is the call's own cause.
fn try_decaps<H: Hash>(
    heap: Global,
    set: &[u8],
    dk: Option<&[u8]>,
    c: Option<&[u8]>,
) -> Result<Vec<u8>, Problem>
    ensures { Answers result (decaps_answer H.Hash.hashes set.now (text_of dk.entry) (text_of c.entry)) }
{
    let n = set_number(set)?;
    let (dk, c) = both(heap, dk, c)?;
    call_decaps::<H>(heap, n, dk.as_slice(), c.as_slice())
}

// kem keys SET D Z
pub fn keys<H: Hash>(
    heap: Global,
    set: &[u8],
    d: Option<&[u8]>,
    z: Option<&[u8]>,
) -> Result<Vec<u8>, AllocError>
    ensures { IfOk result (λ v. v.items ≡ keys_answer H.Hash.hashes set.now (text_of d.entry) (text_of z.entry)) }
{
    told(heap, try_keys::<H>(heap, set, d, z))
}

// kem encaps SET PK M
pub fn encaps<H: Hash>(
    heap: Global,
    set: &[u8],
    ek: Option<&[u8]>,
    m: Option<&[u8]>,
) -> Result<Vec<u8>, AllocError>
    ensures { IfOk result (λ v. v.items ≡ encaps_answer H.Hash.hashes set.now (text_of ek.entry) (text_of m.entry)) }
{
    told(heap, try_encaps::<H>(heap, set, ek, m))
}

// kem decaps SET SK TEXT
pub fn decaps<H: Hash>(
    heap: Global,
    set: &[u8],
    dk: Option<&[u8]>,
    c: Option<&[u8]>,
) -> Result<Vec<u8>, AllocError>
    ensures { IfOk result (λ v. v.items ≡ decaps_answer H.Hash.hashes set.now (text_of dk.entry) (text_of c.entry)) }
{
    told(heap, try_decaps::<H>(heap, set, dk, c))
}
