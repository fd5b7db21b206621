// The calls of the suite at one place: ML-KEM and ML-DSA on lent bytes, by set number, over any hashes; what is promised of them; and what follows
// for those who make the calls.
#![tactic(auto)]

ghost use Rattle.std.specs.Prelude.{◌≡◌, length};
ghost use Rattle.standards.specs.Hashes.{Hashes, Fair};
ghost use Rattle.standards.specs.Fips202.{fips202};
ghost use Rattle.standards.specs.MlKem.{ek_of, dk_of, encaps_key, encaps_text, decaps};
ghost use Rattle.standards.specs.MlDsa.{pk_of, sk_of};
ghost use Rattle.standards.specs.Calls.{kem_of, dsa_of, kem_keys_verdict, encaps_verdict, decaps_verdict, dsa_keys_verdict, signed, sign_verdict, accepts, after};
ghost use Rattle.sets.specs.Sets.{verdict_of};

pub mod corollaries;
pub mod promise;
#[cfg(test)]
mod tests;

use fips202::functions::Fips202;
use hash::Hash;
use sets::types::Refusal;
use std::marker::PhantomData;

// The calls of ML-KEM. What a call refuses leaves every lent byte as it was; `sets::verdict` gives a refusal's number.
pub trait Exchange {
    // Over which functions they are.
    ghost hashes: { Hashes };

    // ML-KEM.KeyGen of the seeds d and z.
    fn keys(
        set: u8,
        d: &[u8; 32],
        z: &[u8; 32],
        ek: &mut [u8],
        dk: &mut [u8],
    ) -> Result<(), Refusal>
        ensures verdict { verdict_of result ≡ kem_keys_verdict hashes set d.now (length ek.old) (length dk.old) }
        ensures public { ek.new ≡ after (verdict_of result) (ek_of hashes (kem_of set) d.now) ek.old }
        ensures secret { dk.new ≡ after (verdict_of result) (dk_of hashes (kem_of set) d.now z.now) dk.old };

    // ML-KEM.Encaps of a key with the coin m.
    fn encapsulate(
        set: u8,
        ek: &[u8],
        m: &[u8; 32],
        key: &mut [u8; 32],
        text: &mut [u8],
    ) -> Result<(), Refusal>
        ensures verdict { verdict_of result ≡ encaps_verdict hashes set ek.now (length text.old) }
        ensures key { key.new ≡ after (verdict_of result) (encaps_key hashes ek.now m.now) key.old }
        ensures text { text.new ≡ after (verdict_of result) (encaps_text hashes (kem_of set) ek.now m.now) text.old };

    // ML-KEM.Decaps, with implicit rejection: a ciphertext that was not made so gives another key, and no refusal.
    fn decapsulate(set: u8, dk: &[u8], text: &[u8], key: &mut [u8; 32]) -> Result<(), Refusal>
        ensures verdict { verdict_of result ≡ decaps_verdict hashes set dk.now text.now }
        ensures key { key.new ≡ after (verdict_of result) (decaps hashes (kem_of set) dk.now text.now) key.old };

    ghost fair: { Fair hashes };
}

// The calls of ML-DSA.
pub trait Signing {
    // Over which functions they are.
    ghost hashes: { Hashes };

    // ML-DSA.KeyGen of the seed xi.
    fn keys(set: u8, xi: &[u8; 32], pk: &mut [u8], sk: &mut [u8]) -> Result<(), Refusal>
        ensures verdict { verdict_of result ≡ dsa_keys_verdict hashes set xi.now (length pk.old) (length sk.old) }
        ensures public { pk.new ≡ after (verdict_of result) (pk_of hashes (dsa_of set) xi.now) pk.old }
        ensures secret { sk.new ≡ after (verdict_of result) (sk_of hashes (dsa_of set) xi.now) sk.old };

    // ML-DSA.Sign of a message with a context. A coin of noughts is the standard's deterministic signing.
    fn sign(
        set: u8,
        sk: &[u8],
        ctx: &[u8],
        message: &[u8],
        coin: &[u8; 32],
        sig: &mut [u8],
    ) -> Result<(), Refusal>
        ensures verdict { verdict_of result ≡ sign_verdict hashes set sk.now ctx.now message.now coin.now (length sig.old) }
        ensures bytes { sig.new ≡ after (verdict_of result) (signed hashes set sk.now ctx.now message.now coin.now) sig.old };

    // ML-DSA.Verify. What does not fit is no signature, so the answer is a `bool` and no refusal.
    fn verify(set: u8, pk: &[u8], ctx: &[u8], message: &[u8], sig: &[u8]) -> bool
        ensures { result ≡ accepts hashes set pk.now ctx.now message.now sig.now };

    ghost fair: { Fair hashes };
}

// Names the calls of both schemes over the hashes H. Nothing needs a value of it.
pub struct Over<H: Hash> {
    of: PhantomData<H>,
}

// The suite at FIPS 202's own hashes.
pub type Suite = Over<Fips202>;

// Its calls are over them.
pub fn is_over_fips202()
    ensures exchange { ⟦<Suite as Exchange>⟧.hashes ≡ fips202 }
    ensures signing { ⟦<Suite as Signing>⟧.hashes ≡ fips202 }
{}

impl<H: Hash> Exchange for Over<H> {
    ghost hashes = { H.hashes };

    fn keys(
        set: u8,
        d: &[u8; 32],
        z: &[u8; 32],
        ek: &mut [u8],
        dk: &mut [u8],
    ) -> Result<(), Refusal> {
        mlkem::keys::<H>(set, d, z, ek, dk)
    }

    fn encapsulate(
        set: u8,
        ek: &[u8],
        m: &[u8; 32],
        key: &mut [u8; 32],
        text: &mut [u8],
    ) -> Result<(), Refusal> {
        mlkem::encapsulate::<H>(set, ek, m, key, text)
    }

    fn decapsulate(set: u8, dk: &[u8], text: &[u8], key: &mut [u8; 32]) -> Result<(), Refusal> {
        mlkem::decapsulate::<H>(set, dk, text, key)
    }

    ghost fair = { H.fair };
}

impl<H: Hash> Signing for Over<H> {
    ghost hashes = { H.hashes };

    fn keys(set: u8, xi: &[u8; 32], pk: &mut [u8], sk: &mut [u8]) -> Result<(), Refusal> {
        mldsa::keys::<H>(set, xi, pk, sk)
    }

    fn sign(
        set: u8,
        sk: &[u8],
        ctx: &[u8],
        message: &[u8],
        coin: &[u8; 32],
        sig: &mut [u8],
    ) -> Result<(), Refusal> {
        mldsa::sign::<H>(set, sk, ctx, message, coin, sig)
    }

    fn verify(set: u8, pk: &[u8], ctx: &[u8], message: &[u8], sig: &[u8]) -> bool {
        mldsa::verify::<H>(set, pk, ctx, message, sig)
    }

    ghost fair = { H.fair };
}
