// ML-KEM over any hashes, one code for the three sets: the calls on lent bytes, by set number. First all checks, then the first write: what is
// refused leaves every lent byte as it was.
// A set comes as a number, so that a call can refuse one that there is not. Rooms are for the largest set, since memory is fixed.
#![tactic(auto)]

ghost use Rattle.std.specs.Prelude.{◌≡◌, length};
ghost use Rattle.standards.specs.MlKem.{ek_of, dk_of, encaps_key, encaps_text, decaps};
ghost use Rattle.standards.specs.Calls.{kem_of, kem_keys_verdict, encaps_verdict, decaps_verdict, after};
ghost use Rattle.sets.specs.Sets.{verdict_of};

pub mod kem;
pub mod key_types;

use hash::Hash;
use key_types::{DecapsulationKey, EncapsulationKey, key_and_coins};
use kpke::cipher::encrypt;
use sets::types::{KemSet, Refusal};

// ML-KEM.KeyGen of the seeds d and z.
pub fn keys<H: Hash>(
    set: u8,
    d: &[u8; 32],
    z: &[u8; 32],
    ek: &mut [u8],
    dk: &mut [u8],
) -> Result<(), Refusal>
    ensures verdict { verdict_of result ≡ kem_keys_verdict H.Hash.hashes set d.now (length ek.old) (length dk.old) }
    ensures public { ek.new ≡ after (verdict_of result) (ek_of H.Hash.hashes (kem_of set) d.now) ek.old }
    ensures secret { dk.new ≡ after (verdict_of result) (dk_of H.Hash.hashes (kem_of set) d.now z.now) dk.old }
{
    let p = KemSet::try_from(set)?;
    if ek.len() != p.ek_length() || dk.len() != p.dk_length() {
        return Err(Refusal::Length);
    }
    kem::key_gen::<H>(p, d, z, ek, dk)
}

// ML-KEM.Encaps of a key with the coin m.
pub fn encapsulate<H: Hash>(
    set: u8,
    ek: &[u8],
    m: &[u8; 32],
    key: &mut [u8; 32],
    text: &mut [u8],
) -> Result<(), Refusal>
    ensures verdict { verdict_of result ≡ encaps_verdict H.Hash.hashes set ek.now (length text.old) }
    ensures key { key.new ≡ after (verdict_of result) (encaps_key H.Hash.hashes ek.now m.now) key.old }
    ensures text { text.new ≡ after (verdict_of result) (encaps_text H.Hash.hashes (kem_of set) ek.now m.now) text.old }
{
    let p = KemSet::try_from(set)?;
    if text.len() != p.text_length() {
        return Err(Refusal::Length);
    }
    let ek = EncapsulationKey::new(p, ek)?;
    let mut a = [[0u16; 256]; 16];
    ek.expand::<H>(&mut a)?;
    let g = key_and_coins::<H>(ek.bytes, m);
    key.copy_from_slice(&g[0..32]);
    encrypt::<H>(p, &a, ek.bytes, m, &g[32..64], text);
    Ok(())
}

// ML-KEM.Decaps, with implicit rejection: a ciphertext that was not made so gives another key, and no refusal.
pub fn decapsulate<H: Hash>(set: u8, dk: &[u8], c: &[u8], key: &mut [u8; 32]) -> Result<(), Refusal>
    ensures verdict { verdict_of result ≡ decaps_verdict H.Hash.hashes set dk.now c.now }
    ensures key { key.new ≡ after (verdict_of result) (decaps H.Hash.hashes (kem_of set) dk.now c.now) key.old }
{
    let p = KemSet::try_from(set)?;
    if c.len() != p.text_length() {
        return Err(Refusal::Length);
    }
    let dk = DecapsulationKey::new::<H>(p, dk)?;
    let mut a = [[0u16; 256]; 16];
    dk.encapsulation_key().expand::<H>(&mut a)?;
    dk.decapsulate::<H>(&a, c, key);
    Ok(())
}
