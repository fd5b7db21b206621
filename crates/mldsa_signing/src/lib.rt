// ML-DSA.Sign over any hashes, one code for the three sets: attempts until one is good.
#![tactic(auto)]

ghost use Rattle.std.specs.Prelude.{◌≡◌, ◌≤◌, if◌then◌else◌, nat_eq, length};
ghost use Rattle.standards.specs.MlDsa.{sk_length, sig_length, sign, attempts};
ghost use Rattle.standards.specs.Calls.{after};
ghost use Rattle.sets.specs.Sets.{dsa_numbers, verdict_of};
ghost use Rattle.mldsa_signing.specs.KnownRows.{MatrixRows};

mod attempt;
mod key;

use attempt::attempt;
use hash::Hash;
use key::OpenedKey;
use mldsa_challenge::message_representative;
use mldsa_expand::expand_a;
use sets::types::{DsaSet, Refusal};

// How many attempts there are at most: the standard sets no bound. The counter, l more for each, stays below 2^13.
const ATTEMPTS: u16 = 1024;

// Attempts until one is good. If none is, nothing is written.
fn attempts<H: Hash>(
    key: &OpenedKey,
    a: &[[u32; 256]],
    mu: &[u8; 64],
    seed: &[u8; 64],
    sig: &mut [u8],
) -> Result<(), Refusal>
    requires matrix { MatrixRows H.Hash.hashes (dsa_numbers key.now.set) key.now.bytes.now a.now }
    requires long { length sig.old ≡ sig_length (dsa_numbers key.now.set) }
    ensures verdict { let bytes = attempts 1024 H.Hash.hashes (dsa_numbers key.now.set) key.now.bytes.now mu.now seed.now 0 in
        verdict_of result ≡ (if nat_eq (length bytes) 0 then 6 else 0) }
    ensures bytes { let bytes = attempts 1024 H.Hash.hashes (dsa_numbers key.now.set) key.now.bytes.now mu.now seed.now 0 in
        sig.new ≡ after (verdict_of result) bytes sig.old }
{
    let l = key.set.l as u16;
    for n in 0..ATTEMPTS {
        if attempt::<H>(key, a, mu, seed, n * l, sig) {
            return Ok(());
        }
    }
    Err(Refusal::Attempts)
}

// Signs a message with its context, by a secret key and the coin rnd, which is noughts for deterministic signing. Where no attempt is good, which
// does not happen in practice, nothing is written.
// The matrix and the secret rows are made once, into rooms for the largest set, since memory is fixed. Whether all draws of the matrix were full
// isn't asked: the empty places of one that fell short are noughts here and in the text.
pub fn sign<H: Hash>(
    p: DsaSet,
    sk: &[u8],
    ctx: &[u8],
    message: &[u8],
    rnd: &[u8; 32],
    sig: &mut [u8],
) -> Result<(), Refusal>
    requires key { length sk.now ≡ sk_length (dsa_numbers p) }
    requires context { length ctx.now ≤ 255 }
    requires long { length sig.old ≡ sig_length (dsa_numbers p) }
    ensures verdict { verdict_of result ≡ (if nat_eq (length (sign H.Hash.hashes (dsa_numbers p) sk.now ctx.now message.now rnd.now)) 0 then 6 else 0) }
    ensures bytes { sig.new ≡ after (verdict_of result) (sign H.Hash.hashes (dsa_numbers p) sk.now ctx.now message.now rnd.now) sig.old }
{
    let mut s1_room = [[0u32; 256]; 7];
    let mut s2_room = [[0u32; 256]; 8];
    let mut t0_room = [[0u32; 256]; 8];
    let s1 = &mut s1_room[0..p.l];
    let s2 = &mut s2_room[0..p.k];
    let t0 = &mut t0_room[0..p.k];
    let key = OpenedKey::open(p, sk, s1, s2, t0);
    let mut a_room = [[0u32; 256]; 56];
    let a = &mut a_room[0..p.k * p.l];
    expand_a::<H>(p, key.rho(), a);
    let mu = message_representative::<H>(key.tr(), ctx, message);
    let seed = key.private_seed::<H>(rnd, &mu);
    attempts::<H>(&key, a, &mu, &seed, sig)
}
