// What whoever makes the calls has of the promise, over any hashes. The calls are made one after the other, and the first that refuses ends them.
ghost use Rattle.std.specs.Prelude.{◌≡◌, true, T, length, IfOk, if◌then◌else◌, ◌==◌};
ghost use Rattle.standards.specs.MlKem.{ek_of, encaps_key, text_length, noise_below_quarter};
ghost use Rattle.standards.specs.MlDsa.{sk_of};
ghost use Rattle.standards.specs.Calls.{kem_of, dsa_of, kem_keys_verdict, dsa_keys_verdict, signed, sign_verdict};
ghost use Rattle.sets.specs.Sets.{verdict_of};
ghost use Rattle.suite.specs.Verdicts.{first_refusal};

use crate::{Exchange, Signing};
use sets::types::Refusal;

// An exchange by keys of the seeds d and z, with the coin m: both sides have one key whenever the noise is below a quarter of the modulus. By keys that
// were made so, nothing is refused but for a ciphertext's length.
pub fn exchange<E: Exchange>(
    set: u8,
    d: &[u8; 32],
    z: &[u8; 32],
    m: &[u8; 32],
    ek: &mut [u8],
    dk: &mut [u8],
    text: &mut [u8],
    sent: &mut [u8; 32],
    got: &mut [u8; 32],
) -> Result<(), Refusal>
    ensures verdict { verdict_of result ≡ first_refusal (kem_keys_verdict E.hashes set d.now (length ek.old) (length dk.old)) (if length text.old == text_length (kem_of set) then 0 else 2) }
    ensures key { IfOk result (λ _. sent.new ≡ encaps_key E.hashes (ek_of E.hashes (kem_of set) d.now) m.now) }
    ensures agree { IfOk result (λ _. T (noise_below_quarter E.hashes (kem_of set) d.now z.now m.now) → got.new ≡ sent.new) }
{
    E::keys(set, d, z, ek, dk)?;
    E::encapsulate(set, ek, m, sent, text)?;
    E::decapsulate(set, dk, text, got)
}

// A signature by keys of the seed xi: what is signed passes its check.
pub fn sign_and_verify<S: Signing>(
    set: u8,
    xi: &[u8; 32],
    ctx: &[u8],
    message: &[u8],
    coin: &[u8; 32],
    pk: &mut [u8],
    sk: &mut [u8],
    sig: &mut [u8],
) -> Result<bool, Refusal>
    ensures verdict { verdict_of result ≡ first_refusal (dsa_keys_verdict S.hashes set xi.now (length pk.old) (length sk.old)) (sign_verdict S.hashes set (sk_of S.hashes (dsa_of set) xi.now) ctx.now message.now coin.now (length sig.old)) }
    ensures signature { IfOk result (λ _. sig.new ≡ signed S.hashes set (sk_of S.hashes (dsa_of set) xi.now) ctx.now message.now coin.now) }
    ensures passes { IfOk result (λ good. good ≡ true) }
{
    S::keys(set, xi, pk, sk)?;
    S::sign(set, sk, ctx, message, coin, sig)?;
    Ok(S::verify(set, pk, ctx, message, sig))
}
