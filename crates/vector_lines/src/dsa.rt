// A line of ML-DSA: the fields that its words state, and what keys, signing and verifying give of its seed, its context, its message and its coin.
ghost use Rattle.std.specs.Prelude.{⊤};
ghost use Rattle.vector_lines.specs.Faults.{Says};
ghost use Rattle.vector_lines.specs.Fields.{dsa_fields};
ghost use Rattle.vector_lines.specs.DsaLines.{dsa_in, keys_said, sign_said, taken, verify_said, dsa_said, dsa_line};

use crate::fault::{Fault, Field, compare};
use crate::field::field;
use files::texts::{seed, set_number};
use hash::Hash;
use sets::types::DsaSet;
use std::alloc::Global;
use suite::{Over, Signing};

// What a line of ML-DSA states: what is signed and by which seed, and what the calls give of it.
#[derive(Drop)]
pub struct DsaFields {
    pub xi: [u8; 32],
    pub ctx: Vec<u8>,
    pub message: Vec<u8>,
    pub coin: [u8; 32],
    pub pk: Vec<u8>,
    pub sk: Vec<u8>,
    pub sig: Vec<u8>,
}

// The words of a line of ML-DSA behind its set.
#[derive(Clone, Copy)]
pub struct DsaWords<'a> {
    pub xi: &'a str,
    pub ctx: &'a str,
    pub message: &'a str,
    pub coin: &'a str,
    pub pk: &'a str,
    pub sk: &'a str,
    pub sig: &'a str,
}

impl DsaWords<'_> {
    // The fields that they write: first all digits, then the lengths of the seed and the coin.
    pub fn read(self, heap: Global) -> Result<DsaFields, Fault>
        ensures { let w = self.entry in Says dsa_fields result (dsa_in w.xi.now w.ctx.now w.message.now w.coin.now w.pk.now w.sk.now w.sig.now) }
    {
        let xi = field(heap, self.xi)?;
        let ctx = field(heap, self.ctx)?;
        let message = field(heap, self.message)?;
        let coin = field(heap, self.coin)?;
        let pk = field(heap, self.pk)?;
        let sk = field(heap, self.sk)?;
        let sig = field(heap, self.sig)?;
        Ok(DsaFields {
            xi: seed(&xi)?,
            ctx,
            message,
            coin: seed(&coin)?,
            pk,
            sk,
            sig,
        })
    }
}

// The keys of its seed are those that a line states.
fn check_keys<H: Hash>(heap: Global, set: u8, f: &DsaFields) -> Result<(), Fault>
    ensures { Says (λ _. tt) result (keys_said H.Hash.hashes set (dsa_fields f.now)) }
{
    let p = DsaSet::try_from(set)?;
    let mut pk = vec![in heap; 0u8; p.pk_length()]?;
    let mut sk = vec![in heap; 0u8; p.sk_length()]?;
    Over::<H>::keys(set, &f.xi, &mut pk, &mut sk)?;
    compare(Field::PublicKey, &f.pk, &pk)?;
    compare(Field::SecretKey, &f.sk, &sk)
}

// Signing gives the signature that it states.
fn check_sign<H: Hash>(heap: Global, set: u8, f: &DsaFields) -> Result<(), Fault>
    ensures { Says (λ _. tt) result (sign_said H.Hash.hashes set (dsa_fields f.now)) }
{
    let p = DsaSet::try_from(set)?;
    let mut sig = vec![in heap; 0u8; p.sig_length()]?;
    Over::<H>::sign(set, &f.sk, &f.ctx, &f.message, &f.coin, &mut sig)?;
    compare(Field::Signature, &f.sig, &sig)
}

// A signature that is not taken differs from what signing gives.
fn taken(good: bool) -> Result<(), Fault>
    ensures { Says (λ _. tt) result (taken good) }
{
    if good {
        Ok(())
    } else {
        Err(Fault::Differs(Field::Signature))
    }
}

// Verifying takes it.
fn check_verify<H: Hash>(set: u8, f: &DsaFields) -> Result<(), Fault>
    ensures { Says (λ _. tt) result (verify_said H.Hash.hashes set (dsa_fields f.now)) }
{
    taken(Over::<H>::verify(set, &f.pk, &f.ctx, &f.message, &f.sig))
}

// A line of ML-DSA: keys, then signing and verifying.
fn check_dsa<H: Hash>(heap: Global, set: u8, f: &DsaFields) -> Result<(), Fault>
    ensures { Says (λ _. tt) result (dsa_said H.Hash.hashes set (dsa_fields f.now)) }
{
    check_keys::<H>(heap, set, f)?;
    check_sign::<H>(heap, set, f)?;
    check_verify::<H>(set, f)
}

// The words of a line of ML-DSA.
pub fn check_dsa_line<H: Hash>(heap: Global, set: &str, words: DsaWords<'_>) -> Result<(), Fault>
    ensures { let w = words.entry in Says (λ _. tt) result (dsa_line H.Hash.hashes set.now w.xi.now w.ctx.now w.message.now w.coin.now w.pk.now w.sk.now w.sig.now) }
{
    let set = set_number(set.as_bytes())?;
    check_dsa::<H>(heap, set, &words.read(heap)?)
}
