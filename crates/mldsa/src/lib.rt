// ML-DSA over any hashes, one code for the three sets: the calls on lent bytes, by set number. First all checks, then the first write: what is
// refused leaves every lent byte as it was.
// A set comes as a number, so that a call can refuse one that there is not.
#![tactic(auto)]

ghost use Rattle.std.specs.Prelude.{◌≡◌, length};
ghost use Rattle.standards.specs.MlDsa.{pk_of, sk_of};
ghost use Rattle.standards.specs.Calls.{dsa_of, dsa_keys_verdict, signed, sign_verdict, accepts, after};
ghost use Rattle.sets.specs.Sets.{verdict_of};

use hash::Hash;
use sets::types::{DsaSet, Refusal};

// The longest context, whose length goes into one byte.
const MOST_CONTEXT: usize = 255;

// ML-DSA.KeyGen of the seed xi.
pub fn keys<H: Hash>(set: u8, xi: &[u8; 32], pk: &mut [u8], sk: &mut [u8]) -> Result<(), Refusal>
    ensures verdict { verdict_of result ≡ dsa_keys_verdict H.Hash.hashes set xi.now (length pk.old) (length sk.old) }
    ensures public { pk.new ≡ after (verdict_of result) (pk_of H.Hash.hashes (dsa_of set) xi.now) pk.old }
    ensures secret { sk.new ≡ after (verdict_of result) (sk_of H.Hash.hashes (dsa_of set) xi.now) sk.old }
{
    let p = DsaSet::try_from(set)?;
    if pk.len() != p.pk_length() || sk.len() != p.sk_length() {
        return Err(Refusal::Length);
    }
    mldsa_keys::key_gen::<H>(p, xi, pk, sk)
}

// ML-DSA.Sign of a message with a context. A coin rnd of noughts is the standard's deterministic signing.
pub fn sign<H: Hash>(
    set: u8,
    sk: &[u8],
    ctx: &[u8],
    message: &[u8],
    rnd: &[u8; 32],
    sig: &mut [u8],
) -> Result<(), Refusal>
    ensures verdict { verdict_of result ≡ sign_verdict H.Hash.hashes set sk.now ctx.now message.now rnd.now (length sig.old) }
    ensures bytes { sig.new ≡ after (verdict_of result) (signed H.Hash.hashes set sk.now ctx.now message.now rnd.now) sig.old }
{
    let p = DsaSet::try_from(set)?;
    if sk.len() != p.sk_length() || sig.len() != p.sig_length() {
        return Err(Refusal::Length);
    }
    if ctx.len() > MOST_CONTEXT {
        return Err(Refusal::Context);
    }
    mldsa_signing::sign::<H>(p, sk, ctx, message, rnd, sig)
}

// ML-DSA.Verify. What does not fit is no signature, so the answer is a `bool` and no refusal.
pub fn verify<H: Hash>(set: u8, pk: &[u8], ctx: &[u8], message: &[u8], sig: &[u8]) -> bool
    ensures { result ≡ accepts H.Hash.hashes set pk.now ctx.now message.now sig.now }
{
    let Ok(p) = DsaSet::try_from(set) else {
        return false;
    };
    if pk.len() != p.pk_length() || sig.len() != p.sig_length() || ctx.len() > MOST_CONTEXT {
        return false;
    }
    mldsa_verifying::verify::<H>(p, pk, ctx, message, sig)
}
