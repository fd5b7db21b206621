// A line of ML-KEM: the fields that its words state, and what keys, encapsulation and decapsulation give of its seeds and its coin.
ghost use Rattle.std.specs.Prelude.{⊤};
ghost use Rattle.vector_lines.specs.Faults.{Says};
ghost use Rattle.vector_lines.specs.Fields.{kem_fields};
ghost use Rattle.vector_lines.specs.KemLines.{kem_in, keys_said, encaps_said, decaps_said, kem_said, kem_line};

use crate::fault::{Fault, Field, compare};
use crate::field::field;
use files::texts::{seed, set_number};
use hash::Hash;
use sets::types::KemSet;
use std::alloc::Global;
use suite::{Exchange, Over};

// What a line of ML-KEM states: two seeds and a coin, and what the calls give of them.
#[derive(Drop)]
pub struct KemFields {
    pub d: [u8; 32],
    pub z: [u8; 32],
    pub m: [u8; 32],
    pub ek: Vec<u8>,
    pub dk: Vec<u8>,
    pub c: Vec<u8>,
    pub key: Vec<u8>,
}

// The words of a line of ML-KEM behind its set.
#[derive(Clone, Copy)]
pub struct KemWords<'a> {
    pub d: &'a str,
    pub z: &'a str,
    pub m: &'a str,
    pub ek: &'a str,
    pub dk: &'a str,
    pub c: &'a str,
    pub key: &'a str,
}

impl KemWords<'_> {
    // The fields that they write: first all digits, then the lengths of the seeds and the coin.
    pub fn read(self, heap: Global) -> Result<KemFields, Fault>
        ensures { let w = self.entry in Says kem_fields result (kem_in w.d.now w.z.now w.m.now w.ek.now w.dk.now w.c.now w.key.now) }
    {
        let d = field(heap, self.d)?;
        let z = field(heap, self.z)?;
        let m = field(heap, self.m)?;
        let ek = field(heap, self.ek)?;
        let dk = field(heap, self.dk)?;
        let c = field(heap, self.c)?;
        let key = field(heap, self.key)?;
        Ok(KemFields {
            d: seed(&d)?,
            z: seed(&z)?,
            m: seed(&m)?,
            ek,
            dk,
            c,
            key,
        })
    }
}

// The keys of two seeds are those that a line states.
fn check_keys<H: Hash>(
    heap: Global,
    set: u8,
    d: &[u8; 32],
    z: &[u8; 32],
    ek: &[u8],
    dk: &[u8],
) -> Result<(), Fault>
    ensures { Says (λ _. tt) result (keys_said H.Hash.hashes set d.now z.now ek.now dk.now) }
{
    let p = KemSet::try_from(set)?;
    let mut made_ek = vec![in heap; 0u8; p.ek_length()]?;
    let mut made_dk = vec![in heap; 0u8; p.dk_length()]?;
    Over::<H>::keys(set, d, z, &mut made_ek, &mut made_dk)?;
    compare(Field::EncapsulationKey, ek, &made_ek)?;
    compare(Field::DecapsulationKey, dk, &made_dk)
}

// Encapsulation gives the ciphertext and the key that it states.
fn check_encaps<H: Hash>(
    heap: Global,
    set: u8,
    ek: &[u8],
    m: &[u8; 32],
    c: &[u8],
    key: &[u8],
) -> Result<(), Fault>
    ensures { Says (λ _. tt) result (encaps_said H.Hash.hashes set ek.now m.now c.now key.now) }
{
    let p = KemSet::try_from(set)?;
    let mut made_key = [0u8; 32];
    let mut made_c = vec![in heap; 0u8; p.text_length()]?;
    Over::<H>::encapsulate(set, ek, m, &mut made_key, &mut made_c)?;
    compare(Field::Ciphertext, c, &made_c)?;
    compare(Field::SharedKey, key, &made_key)
}

// Decapsulation gives that key too.
fn check_decaps<H: Hash>(set: u8, dk: &[u8], c: &[u8], key: &[u8]) -> Result<(), Fault>
    ensures { Says (λ _. tt) result (decaps_said H.Hash.hashes set dk.now c.now key.now) }
{
    let mut made_key = [0u8; 32];
    Over::<H>::decapsulate(set, dk, c, &mut made_key)?;
    compare(Field::SharedKey, key, &made_key)
}

// A line of ML-KEM: keys, then encapsulation and decapsulation.
fn check_kem<H: Hash>(heap: Global, set: u8, f: &KemFields) -> Result<(), Fault>
    ensures { Says (λ _. tt) result (kem_said H.Hash.hashes set (kem_fields f.now)) }
{
    check_keys::<H>(heap, set, &f.d, &f.z, &f.ek, &f.dk)?;
    check_encaps::<H>(heap, set, &f.ek, &f.m, &f.c, &f.key)?;
    check_decaps::<H>(set, &f.dk, &f.c, &f.key)
}

// The words of a line of ML-KEM.
pub fn check_kem_line<H: Hash>(heap: Global, set: &str, words: KemWords<'_>) -> Result<(), Fault>
    ensures { let w = words.entry in Says (λ _. tt) result (kem_line H.Hash.hashes set.now w.d.now w.z.now w.m.now w.ek.now w.dk.now w.c.now w.key.now) }
{
    let set = set_number(set.as_bytes())?;
    check_kem::<H>(heap, set, &words.read(heap)?)
}
