// What `dsa` answers, over any hashes. A set goes on as its number, which the calls take.
// Each command is a function of its own, with the answer that it promises; each names its own files, so they are parameters and no struct.
ghost use Rattle.std.specs.Prelude.{◌≡◌, IfOk};
ghost use Rattle.files.specs.Texts.{text_of};
ghost use Rattle.files.specs.Dsa.{call_keys, call_sign, good_or_bad, keys_answer, sign_answer, checked, verify_answer};
ghost use Rattle.files.specs.Problems.{Answers};

use crate::problem::Problem;
use crate::texts::{both, bytes, fits, one_line, seed, set_number, told, two_lines};
use hash::Hash;
use sets::types::DsaSet;
use std::alloc::{AllocError, Global};
use suite::{Over, Signing};

// The lines of a pair of keys.
fn call_keys<H: Hash>(heap: Global, set: u8, xi: &[u8; 32]) -> Result<Vec<u8>, Problem>
    ensures { Answers result (call_keys H.Hash.hashes set xi.now) }
{
    let p = DsaSet::try_from(set)?;
    let mut pk = vec![in heap; 0u8; p.pk_length()]?;
    let mut sk = vec![in heap; 0u8; p.sk_length()]?;
    Over::<H>::keys(set, xi, pk.as_mut_slice(), sk.as_mut_slice())?;
    Ok(two_lines(heap, pk.as_slice(), sk.as_slice())?)
}

// The line of a signature.
fn call_sign<H: Hash>(
    heap: Global,
    set: u8,
    sk: &[u8],
    ctx: &[u8],
    message: &[u8],
    coin: &[u8; 32],
) -> Result<Vec<u8>, Problem>
    ensures { Answers result (call_sign H.Hash.hashes set sk.now ctx.now message.now coin.now) }
{
    let p = DsaSet::try_from(set)?;
    let mut sig = vec![in heap; 0u8; p.sig_length()]?;
    Over::<H>::sign(set, sk, ctx, message, coin, sig.as_mut_slice())?;
    Ok(one_line(heap, sig.as_slice())?)
}

// The line of a check.
fn good_or_bad(heap: Global, good: bool) -> Result<Vec<u8>, AllocError>
    ensures { IfOk result (λ v. v.items ≡ good_or_bad good) }
{
    Vec::from_slice(heap, if good { b"good\n" } else { b"bad\n" })
}

// The lines of `dsa keys`, or the first cause of refusal: the set, the file, the length of the seed, the call's own.
fn try_keys<H: Hash>(heap: Global, set: &[u8], xi: Option<&[u8]>) -> Result<Vec<u8>, Problem>
    ensures { Answers result (keys_answer H.Hash.hashes set.now (text_of xi.entry)) }
{
    let n = set_number(set)?;
    let xi = bytes(heap, xi)?;
    let xi = seed(xi.as_slice())?;
    call_keys::<H>(heap, n, &xi)
}

// The same of `dsa sign`. A context and a message may have any length that the program takes.
fn try_sign<H: Hash>(
    heap: Global,
    set: &[u8],
    sk: Option<&[u8]>,
    ctx: Option<&[u8]>,
    message: Option<&[u8]>,
    coin: Option<&[u8]>,
) -> Result<Vec<u8>, Problem>
    ensures { Answers result (sign_answer H.Hash.hashes set.now (text_of sk.entry) (text_of ctx.entry) (text_of message.entry) (text_of coin.entry)) }
{
    let n = set_number(set)?;
    let (sk, context) = both(heap, sk, ctx)?;
    let (text, coin) = both(heap, message, coin)?;
    fits(ctx)?;
    fits(message)?;
    let coin = seed(coin.as_slice())?;
    call_sign::<H>(
        heap,
        n,
        sk.as_slice(),
        context.as_slice(),
        text.as_slice(),
        &coin,
    )
}

// The same of `dsa verify` for a set that there is.
fn try_verify<H: Hash>(
    heap: Global,
    set: u8,
    pk: Option<&[u8]>,
    ctx: Option<&[u8]>,
    message: Option<&[u8]>,
    sig: Option<&[u8]>,
) -> Result<Vec<u8>, Problem>
    ensures { Answers result (checked H.Hash.hashes set (text_of pk.entry) (text_of ctx.entry) (text_of message.entry) (text_of sig.entry)) }
{
    let (key, context) = both(heap, pk, ctx)?;
    let (text, signature) = both(heap, message, sig)?;
    fits(pk)?;
    fits(ctx)?;
    fits(message)?;
    fits(sig)?;
    let good = Over::<H>::verify(
        set,
        key.as_slice(),
        context.as_slice(),
        text.as_slice(),
        signature.as_slice(),
    );
    Ok(good_or_bad(heap, good)?)
}

// dsa keys SET XI
pub fn keys<H: Hash>(heap: Global, set: &[u8], xi: Option<&[u8]>) -> Result<Vec<u8>, AllocError>
    ensures { IfOk result (λ v. v.items ≡ keys_answer H.Hash.hashes set.now (text_of xi.entry)) }
{
    told(heap, try_keys::<H>(heap, set, xi))
}

// dsa sign SET SK CTX MESSAGE COIN
pub fn sign<H: Hash>(
    heap: Global,
    set: &[u8],
    sk: Option<&[u8]>,
    ctx: Option<&[u8]>,
    message: Option<&[u8]>,
    coin: Option<&[u8]>,
) -> Result<Vec<u8>, AllocError>
    ensures { IfOk result (λ v. v.items ≡ sign_answer H.Hash.hashes set.now (text_of sk.entry) (text_of ctx.entry) (text_of message.entry) (text_of coin.entry)) }
{
    told(heap, try_sign::<H>(heap, set, sk, ctx, message, coin))
}

// dsa verify SET PK CTX MESSAGE SIG. Of a set that there is not, nothing is good, whatever the files are.
pub fn verify<H: Hash>(
    heap: Global,
    set: &[u8],
    pk: Option<&[u8]>,
    ctx: Option<&[u8]>,
    message: Option<&[u8]>,
    sig: Option<&[u8]>,
) -> Result<Vec<u8>, AllocError>
    ensures { IfOk result (λ v. v.items ≡ verify_answer H.Hash.hashes set.now (text_of pk.entry) (text_of ctx.entry) (text_of message.entry) (text_of sig.entry)) }
{
    match set_number(set) {
        Ok(n) => told(heap, try_verify::<H>(heap, n, pk, ctx, message, sig)),
        Err(_) => good_or_bad(heap, false),
    }
}
