// A secret key opened for signing: its bytes, and its secret rows as attempts multiply by them.
// Bounds of a row's numbers stand in clauses: rows are plain, since one that is lent to be filled may hold anything before.
// How long keys are stands in clauses, too: a signature beside them is lent to be written, and a type would hold one kind of lending.
ghost use Rattle.std.specs.Prelude.{◌≡◌, ◌*◌, ◌≤◌, ◌++◌, length, take, drop};
ghost use Rattle.standards.specs.Lists.{tables};
ghost use Rattle.standards.specs.Hashes.{shake256_bytes};
ghost use Rattle.standards.specs.MlDsaParts.{bit_unpack, ntt as dsa_ntt};
ghost use Rattle.standards.specs.MlDsa.{sk_length, sk_rho, sk_k, sk_tr};
ghost use Rattle.algebra.specs.RowArrays.{RowsBelow};
ghost use Rattle.sets.specs.Sets.{dsa_numbers};
ghost use Rattle.mldsa_signing.specs.KnownRows.{S1Rows, S2Rows, T0Rows};

use hash::{Absorb, Hash, Reader, Xof};
use mldsa_parts::interval::Interval;
use mldsa_vectors::encodings::bit_unpack_rows;
use mldsa_vectors::products::ntt_rows;
use sets::types::DsaSet;

// BitUnpack and NTT of each row.
fn unpack_transformed(interval: Interval, bs: &[u8], v: &mut [[u32; 256]])
    requires { 32 * interval.width.bits * length v.old ≤ length bs.now }
    ensures value { let w = 32 * interval.width.bits in
        v.new ≡ tables (length v.old) (λ i. dsa_ntt (bit_unpack interval.width.bits interval.top (take w (drop (w * i) bs.now)))) }
    ensures below { RowsBelow 8380417 (length v.old) v.new }
{
    bit_unpack_rows(interval, bs, v);
    ntt_rows(v);
}

// A secret key of the length of its set. Its rows s1, s2 and t0 are transformed once, for all attempts.
#[derive(Clone, Copy)]
pub struct OpenedKey<'a> {
    pub set: DsaSet,
    pub bytes: &'a [u8],
    pub s1: &'a [[u32; 256]],
    pub s2: &'a [[u32; 256]],
    pub t0: &'a [[u32; 256]],
    pub ghost long: { length bytes.now ≡ sk_length (dsa_numbers set) },
    pub ghost s1_is: { S1Rows (dsa_numbers set) bytes.now s1.now },
    pub ghost s2_is: { S2Rows (dsa_numbers set) bytes.now s2.now },
    pub ghost t0_is: { T0Rows (dsa_numbers set) bytes.now t0.now },
}

impl<'a> OpenedKey<'a> {
    // The rows of skDecode go into rooms that are lent for them.
    pub fn open(
        set: DsaSet,
        bytes: &'a [u8],
        s1: &'a mut [[u32; 256]],
        s2: &'a mut [[u32; 256]],
        t0: &'a mut [[u32; 256]],
    ) -> OpenedKey<'a>
        requires long { length bytes.now ≡ sk_length (dsa_numbers set) }
        requires s1 { length s1.old ≡ set.l }
        requires s2 { length s2.old ≡ set.k }
        requires t0 { length t0.old ≡ set.k }
        ensures set { result.set ≡ set }
        ensures bytes { result.bytes.now ≡ bytes.now }
    {
        let interval = Interval::of_s(set);
        let w = 32 * interval.width.bits;
        unpack_transformed(interval, &bytes[128..], s1);
        unpack_transformed(interval, &bytes[128 + w * set.l..], s2);
        unpack_transformed(Interval::of_t0(), &bytes[128 + w * (set.l + set.k)..], t0);
        OpenedKey {
            set,
            bytes,
            s1,
            s2,
            t0,
        }
    }

    // The seed of the matrix in it.
    pub fn rho(&self) -> &'a [u8]
        ensures { result.now ≡ sk_rho self.now.bytes.now }
    {
        &self.bytes[0..32]
    }

    // The hash of the public key in it.
    pub fn tr(&self) -> &'a [u8]
        ensures { result.now ≡ sk_tr self.now.bytes.now }
    {
        &self.bytes[64..128]
    }

    // The private seed, which the standard calls rho'': H of the key's K, the coin and mu.
    pub fn private_seed<H: Hash>(&self, rnd: &[u8; 32], mu: &[u8; 64]) -> [u8; 64]
        ensures { result ≡ shake256_bytes H.Hash.hashes (sk_k self.now.bytes.now ++ (rnd.now ++ mu.now)) 64 }
    {
        let mut xof = H::open_shake256();
        xof.absorb(&self.bytes[32..64]);
        xof.absorb(rnd);
        xof.absorb(mu);
        let mut seed = [0u8; 64];
        xof.finish().squeeze(&mut seed);
        seed
    }
}
