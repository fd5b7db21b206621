// ML-DSA.KeyGen_internal, for keys of the right length.
// Loops go by row: the rows may be secret, and this form lowers to plain code that reads the same places whatever they hold. Rooms are for the
// largest set, and what is lent of them is as long as the set asks: memory is fixed.
// Bounds of a row's numbers stand in clauses: rows are plain, since one that is lent to be filled may hold anything before.
// How long keys are stands in clauses: some are lent to be read and some to be written, and a type would hold one kind of lending.
#![tactic(auto)]

ghost use Rattle.std.specs.Prelude.{◌≡◌, ◌+◌, ◌*◌, ◌≤◌, ◌++◌, length, take, drop, if◌then◌else◌};
ghost use Rattle.standards.specs.Lists.{row_at, tables, joined};
ghost use Rattle.standards.specs.Bytes.{pack};
ghost use Rattle.standards.specs.Hashes.{shake256_bytes};
ghost use Rattle.standards.specs.MlDsaParts.{eta_bits};
ghost use Rattle.standards.specs.MlDsa.{key_seeds, pk_of, sk_of, keys_drawn, pk_length, sk_length};
ghost use Rattle.standards.specs.Calls.{after};
ghost use Rattle.algebra.specs.RowArrays.{RowsBelow, RowsAre};
ghost use Rattle.mldsa_laws.specs.Steps.{entry_at};
ghost use Rattle.sets.specs.Sets.{dsa_numbers, verdict_of};
ghost use Rattle.mldsa_keys.specs.KeyRows.{rows_drawn, s1_row, s2_row, t_row, packed_rows, sk_parts};

use hash::Hash;
use mldsa_expand::{expand_a, expand_s};
use mldsa_parts::encoding::T1_BITS;
use mldsa_parts::interval::Interval;
use mldsa_vectors::encodings::bit_pack_rows;
use mldsa_vectors::products::{add_rows, matrix_product, ntt_rows};
use mldsa_vectors::rounding::power2_round_rows;
use rows::pack_rows;
use sets::types::{DsaSet, Refusal};

// rho, rho' and K one after the other: H of xi and the bytes k and l.
fn key_seeds<H: Hash>(p: DsaSet, xi: &[u8; 32]) -> [u8; 128]
    ensures { result ≡ key_seeds H.Hash.hashes (dsa_numbers p) xi.now }
{
    let mut seeds = [0u8; 128];
    H::shake256_into(xi, &[p.k as u8, p.l as u8], &mut seeds);
    seeds
}

// The matrix, s1 and s2 of the seeds: whether every draw was full. All three are drawn, whatever the draws before were.
fn draw<H: Hash>(
    p: DsaSet,
    seeds: &[u8; 128],
    a: &mut [[u32; 256]],
    s1: &mut [[u32; 256]],
    s2: &mut [[u32; 256]],
) -> bool
    requires matrix { length a.old ≡ p.k * p.l }
    requires rows { (length s1.old ≡ p.l) × (length s2.old ≡ p.k) }
    ensures drawn { result ≡ rows_drawn H.Hash.hashes (dsa_numbers p) seeds.now }
    ensures matrix { RowsAre (p.k * p.l) (entry_at H.Hash.hashes p.l (take 32 seeds.now)) a.new }
    ensures s1 { RowsAre p.l (s1_row H.Hash.hashes (dsa_numbers p) seeds.now) s1.new }
    ensures s2 { RowsAre p.k (s2_row H.Hash.hashes (dsa_numbers p) seeds.now) s2.new }
    ensures matrix_below { RowsBelow 8380417 (length a.old) a.new }
    ensures s1_below { RowsBelow 8380417 (length s1.old) s1.new }
    ensures s2_below { RowsBelow 8380417 (length s2.old) s2.new }
{
    let matrix = expand_a::<H>(p, &seeds[0..32], a);
    let first = expand_s::<H>(p.eta, &seeds[32..96], 0, s1);
    let second = expand_s::<H>(p.eta, &seeds[32..96], p.l, s2);
    matrix & first & second
}

// The rows of t = A s1 + s2. s1 is transformed in a room of its own, since the secret key holds it as it was drawn. The room is for seven rows, the most
// that a set has.
fn t_rows(a: &[[u32; 256]], s1: &[[u32; 256]], s2: &[[u32; 256]], t: &mut [[u32; 256]])
    requires few { length s1.now ≤ 7 }
    requires matrix { length a.now ≡ length t.old * length s1.now }
    requires rows { length s2.now ≡ length t.old }
    requires a_below { RowsBelow 8380417 (length a.now) a.now }
    requires s1_below { RowsBelow 8380417 (length s1.now) s1.now }
    requires s2_below { RowsBelow 8380417 (length s2.now) s2.now }
    ensures value { RowsAre (length s2.now) (t_row (length s1.now) a.now s1.now s2.now) t.new }
    ensures below { RowsBelow 8380417 (length t.old) t.new }
{
    let mut room = [[0u32; 256]; 7];
    let s = &mut room[0..s1.len()];
    s.copy_from_slice(s1);
    ntt_rows(s);
    matrix_product(a, s, t);
    add_rows(t, s2);
}

// rho, and the packed rows of t1 behind it.
fn write_pk(rho: &[u8], t1: &[[u32; 256]], pk: &mut [u8])
    requires { (length rho.now ≡ 32) × (length pk.old ≡ 32 + 320 * length t1.now) }
    ensures { pk.new ≡ rho.now ++ joined (tables (length t1.now) (λ i. pack 10 (row_at t1.now i))) }
{
    pk[0..32].copy_from_slice(rho);
    pack_rows(T1_BITS, t1, &mut pk[32..]);
}

// rho, K, and tr, the hash of the public key.
fn write_head<H: Hash>(seeds: &[u8; 128], pk: &[u8], out: &mut [u8])
    requires { length out.old ≡ 128 }
    ensures { out.new ≡ take 32 seeds.now ++ (drop 96 seeds.now ++ shake256_bytes H.Hash.hashes pk.now 64) }
{
    out[0..32].copy_from_slice(&seeds[0..32]);
    out[32..64].copy_from_slice(&seeds[96..128]);
    H::shake256_into(pk, &[], &mut out[64..]);
}

// The packed rows of s1, s2 and t0.
fn write_rows(p: DsaSet, s1: &[[u32; 256]], s2: &[[u32; 256]], t0: &[[u32; 256]], out: &mut [u8])
    requires rows { (length s1.now ≡ p.l) × ((length s2.now ≡ p.k) × (length t0.now ≡ p.k)) }
    requires long { length out.old ≡ 32 * eta_bits (dsa_numbers p) * (p.l + p.k) + 416 * p.k }
    requires s1_below { RowsBelow 8380417 p.l s1.now }
    requires s2_below { RowsBelow 8380417 p.k s2.now }
    requires t0_below { RowsBelow 8380417 p.k t0.now }
    ensures { out.new ≡ packed_rows (dsa_numbers p) s1.now s2.now t0.now }
{
    let small = Interval::of_s(p);
    let w = 32 * small.width.bits;
    let s1_end = w * p.l;
    let s2_end = s1_end + w * p.k;
    bit_pack_rows(small, s1, &mut out[0..s1_end]);
    bit_pack_rows(small, s2, &mut out[s1_end..s2_end]);
    bit_pack_rows(Interval::of_t0(), t0, &mut out[s2_end..]);
}

// rho, K, tr, and the packed rows behind them.
fn write_sk<H: Hash>(
    p: DsaSet,
    seeds: &[u8; 128],
    pk: &[u8],
    s1: &[[u32; 256]],
    s2: &[[u32; 256]],
    t0: &[[u32; 256]],
    sk: &mut [u8],
)
    requires rows { (length s1.now ≡ p.l) × ((length s2.now ≡ p.k) × (length t0.now ≡ p.k)) }
    requires long { length sk.old ≡ sk_length (dsa_numbers p) }
    requires s1_below { RowsBelow 8380417 p.l s1.now }
    requires s2_below { RowsBelow 8380417 p.k s2.now }
    requires t0_below { RowsBelow 8380417 p.k t0.now }
    ensures { sk.new ≡ sk_parts H.Hash.hashes (dsa_numbers p) seeds.now pk.now s1.now s2.now t0.now }
{
    write_head::<H>(seeds, pk, &mut sk[0..128]);
    write_rows(p, s1, s2, t0, &mut sk[128..]);
}

// A pair of keys, if every draw is full. If not, nothing is written. Whether a draw fell short is all that the code branches on.
pub fn key_gen<H: Hash>(
    p: DsaSet,
    xi: &[u8; 32],
    pk: &mut [u8],
    sk: &mut [u8],
) -> Result<(), Refusal>
    requires public { length pk.old ≡ pk_length (dsa_numbers p) }
    requires secret { length sk.old ≡ sk_length (dsa_numbers p) }
    ensures drawn { verdict_of result ≡ (if keys_drawn H.Hash.hashes (dsa_numbers p) xi.now then 0 else 4) }
    ensures public { pk.new ≡ after (verdict_of result) (pk_of H.Hash.hashes (dsa_numbers p) xi.now) pk.old }
    ensures secret { sk.new ≡ after (verdict_of result) (sk_of H.Hash.hashes (dsa_numbers p) xi.now) sk.old }
{
    let seeds = key_seeds::<H>(p, xi);
    let mut a_room = [[0u32; 256]; 56];
    let a = &mut a_room[0..p.k * p.l];
    let mut s1_room = [[0u32; 256]; 7];
    let s1 = &mut s1_room[0..p.l];
    let mut s2_room = [[0u32; 256]; 8];
    let s2 = &mut s2_room[0..p.k];
    if !draw::<H>(p, &seeds, a, s1, s2) {
        return Err(Refusal::Draw);
    }
    let mut t_room = [[0u32; 256]; 8];
    let t = &mut t_room[0..p.k];
    t_rows(a, s1, s2, t);
    let mut t0_room = [[0u32; 256]; 8];
    let t0 = &mut t0_room[0..p.k];
    // The rows of t become those of t1.
    power2_round_rows(t, t0);
    write_pk(&seeds[0..32], t, pk);
    write_sk::<H>(p, &seeds, pk, s1, s2, t0, sk);
    Ok(())
}
