// One attempt at a signature, in the steps of the standard. The commitment: the masks y, w = A y and the hash of w's high bits. The response to its
// challenge c: z = y + c s1, w - c s2, c t0 and the hint, each with the test that it has to pass.
// Loops over masks and secret rows go by row, and each test looks at every number, whatever the ones before it were. An attempt ends at the first test
// that fails: the standard rejects there, and nothing of the attempt goes out.
// Bounds of a row's numbers stand in clauses: rows are plain, since one that is lent to be filled may hold anything before. Rooms are for the largest
// set, and what is lent of them is as long as the set asks: memory is fixed.
ghost use Rattle.std.specs.Prelude.{◌≡◌, ◌+◌, ◌/◌, ◌<◌, ◌≤◌, if◌then◌else◌, length};
ghost use Rattle.standards.specs.MlDsaParts.{hint_count};
ghost use Rattle.standards.specs.MlDsa.{sig_length, attempt, or_else};
ghost use Rattle.algebra.specs.RowArrays.{RowsBelow};
ghost use Rattle.mldsa_laws.specs.Steps.{w_step, c_step, z_step, v_step, ct_step, hint_step, z_short, v_short, ct_short, few_hints, sig_encode};
ghost use Rattle.sets.specs.Sets.{dsa_numbers};
ghost use Rattle.mldsa_signing.specs.KnownRows.{MatrixRows};
ghost use Rattle.mldsa_signing.specs.Responses.{response_good, response_bytes};

use crate::key::OpenedKey;
use hash::Hash;
use mldsa_challenge::{challenge, commitment_hash};
use mldsa_expand::expand_masks;
use mldsa_hints::{hint_bit_pack, hint_count};
use mldsa_parts::gamma2::Gamma2;
use mldsa_parts::interval::Interval;
use mldsa_parts::norms::norms_below;
use mldsa_vectors::encodings::bit_pack_rows;
use mldsa_vectors::products::{add_products, matrix_product, ntt_rows, products, sub_products};
use mldsa_vectors::rounding::{high_bits_rows, low_bits_rows, make_hint_rows};
use ring::poly::Poly;
use sets::types::DsaSet;

// w = A y. The masks are needed again, so a copy of them is transformed.
fn commit<H: Hash>(key: &OpenedKey, a: &[[u32; 256]], y: &[[u32; 256]], w: &mut [[u32; 256]])
    requires matrix { MatrixRows H.Hash.hashes (dsa_numbers key.now.set) key.now.bytes.now a.now }
    requires rows { (length y.now ≡ key.now.set.l) × (length w.old ≡ key.now.set.k) }
    requires masks { RowsBelow 8380417 key.now.set.l y.now }
    ensures value { w.new ≡ w_step H.Hash.hashes (dsa_numbers key.now.set) key.now.bytes.now y.now }
    ensures below { RowsBelow 8380417 (length w.old) w.new }
{
    let mut room = [[0u32; 256]; 7];
    let y_hat = &mut room[0..y.len()];
    y_hat.copy_from_slice(y);
    ntt_rows(y_hat);
    matrix_product(a, y_hat, w);
}

// The commitment hash, of the high bits of a copy of w.
#[tactic(auto, unfolding(mldsa_laws::specs::Steps::c_step))]
fn hash_commitment<H: Hash>(p: DsaSet, mu: &[u8; 64], w: &[[u32; 256]], c_tilde: &mut [u8])
    requires rows { length w.now ≡ p.k }
    requires below { RowsBelow 8380417 p.k w.now }
    requires long { length c_tilde.old ≡ p.lambda / 4 }
    ensures { c_tilde.new ≡ c_step H.Hash.hashes (dsa_numbers p) mu.now w.now }
{
    let mut room = [[0u32; 256]; 8];
    let w1 = &mut room[0..w.len()];
    w1.copy_from_slice(w);
    high_bits_rows(Gamma2::from(p), w1);
    commitment_hash::<H>(p, mu, w1, c_tilde);
}

// y becomes z = y + c s1: whether its norm is below gamma1 - beta.
#[tactic(auto, unfolding(mldsa_laws::specs::Steps::z_short))]
fn add_cs1(key: &OpenedKey, c_hat: &Poly<u32>, y: &mut [[u32; 256]]) -> bool
    requires rows { length y.old ≡ key.now.set.l }
    requires masks { RowsBelow 8380417 key.now.set.l y.old }
    ensures value { y.new ≡ z_step (dsa_numbers key.now.set) key.now.bytes.now y.old c_hat.now.c }
    ensures below { RowsBelow 8380417 (length y.old) y.new }
    ensures short { result ≡ z_short (dsa_numbers key.now.set) y.new }
{
    add_products(y, c_hat, key.s1);
    norms_below(y, key.set.z_bound())
}

// Whether the norm of the low bits of v is below gamma2 - beta. v is needed again, so a copy is rounded.
#[tactic(auto, unfolding(mldsa_laws::specs::Steps::v_short))]
fn low_bits_short(p: DsaSet, v: &[[u32; 256]]) -> bool
    requires rows { length v.now ≡ p.k }
    requires below { RowsBelow 8380417 p.k v.now }
    ensures { result ≡ v_short (dsa_numbers p) v.now }
{
    let mut room = [[0u32; 256]; 8];
    let r0 = &mut room[0..v.len()];
    r0.copy_from_slice(v);
    low_bits_rows(Gamma2::from(p), r0);
    norms_below(r0, p.low_bound())
}

// w becomes w - c s2: whether its low bits are short.
fn sub_cs2(key: &OpenedKey, c_hat: &Poly<u32>, w: &mut [[u32; 256]]) -> bool
    requires rows { length w.old ≡ key.now.set.k }
    requires commitment { RowsBelow 8380417 key.now.set.k w.old }
    ensures value { w.new ≡ v_step (dsa_numbers key.now.set) key.now.bytes.now w.old c_hat.now.c }
    ensures below { RowsBelow 8380417 (length w.old) w.new }
    ensures short { result ≡ v_short (dsa_numbers key.now.set) w.new }
{
    sub_products(w, c_hat, key.s2);
    low_bits_short(key.set, w)
}

// c t0: whether its norm is below gamma2.
#[tactic(auto, unfolding(mldsa_laws::specs::Steps::ct_short))]
fn multiply_t0(key: &OpenedKey, c_hat: &Poly<u32>, ct0: &mut [[u32; 256]]) -> bool
    requires { length ct0.old ≡ key.now.set.k }
    ensures value { ct0.new ≡ ct_step (dsa_numbers key.now.set) key.now.bytes.now c_hat.now.c }
    ensures below { RowsBelow 8380417 (length ct0.old) ct0.new }
    ensures short { result ≡ ct_short (dsa_numbers key.now.set) ct0.new }
{
    products(c_hat, key.t0, ct0);
    norms_below(ct0, key.set.gamma2)
}

// The hint, of w - c s2 and c t0: whether it has at most omega ones.
#[tactic(auto, unfolding(mldsa_laws::specs::Steps::hint_step, mldsa_laws::specs::Steps::few_hints))]
fn make_hint(p: DsaSet, v: &[[u32; 256]], ct0: &[[u32; 256]], hs: &mut [[u8; 256]]) -> bool
    requires rows { (length v.now ≡ p.k) × (length ct0.now ≡ p.k) × (length hs.old ≡ p.k) }
    requires left { RowsBelow 8380417 p.k v.now }
    requires right { RowsBelow 8380417 p.k ct0.now }
    ensures value { hs.new ≡ hint_step (dsa_numbers p) v.now ct0.now }
    ensures few { result ≡ few_hints (dsa_numbers p) hs.new }
{
    make_hint_rows(Gamma2::from(p), v, ct0, hs);
    hint_count(hs) <= p.omega
}

// sigEncode.
fn sig_encode(p: DsaSet, c_tilde: &[u8], z: &[[u32; 256]], hs: &[[u8; 256]], sig: &mut [u8])
    requires hash { length c_tilde.now ≡ p.lambda / 4 }
    requires rows { (length z.now ≡ p.l) × (length hs.now ≡ p.k) }
    requires below { RowsBelow 8380417 p.l z.now }
    requires few { hint_count hs.now ≤ p.omega }
    requires long { length sig.old ≡ sig_length (dsa_numbers p) }
    ensures { sig.new ≡ sig_encode (dsa_numbers p) c_tilde.now z.now hs.now }
{
    let interval = Interval::of_z(p);
    let z_at = c_tilde.len();
    let hint_at = z_at + 32 * interval.width.bits * z.len();
    sig[0..z_at].copy_from_slice(c_tilde);
    bit_pack_rows(interval, z, &mut sig[z_at..hint_at]);
    hint_bit_pack(p, hs, &mut sig[hint_at..hint_at + p.omega + p.k]);
}

// The response to a challenge: whether it passes the four tests. Only then is the signature written. y becomes z, and w what is left of it.
#[tactic(auto, using(crate::proofs::Responses::few_is), unfolding(crate::specs::Responses::response_good, crate::specs::Responses::response_bytes))]
fn respond(
    key: &OpenedKey,
    c_tilde: &[u8],
    c_hat: &Poly<u32>,
    y: &mut [[u32; 256]],
    w: &mut [[u32; 256]],
    sig: &mut [u8],
) -> bool
    requires hash { length c_tilde.now ≡ key.now.set.lambda / 4 }
    requires rows { (length y.old ≡ key.now.set.l) × (length w.old ≡ key.now.set.k) }
    requires masks { RowsBelow 8380417 key.now.set.l y.old }
    requires commitment { RowsBelow 8380417 key.now.set.k w.old }
    requires long { length sig.old ≡ sig_length (dsa_numbers key.now.set) }
    ensures good { result ≡ response_good (dsa_numbers key.now.set) key.now.bytes.now y.old w.old c_hat.now.c }
    ensures bytes { let bytes = response_bytes (dsa_numbers key.now.set) key.now.bytes.now y.old w.old c_tilde.now c_hat.now.c in
        sig.new ≡ (if result then bytes else sig.old) }
{
    if !add_cs1(key, c_hat, y) {
        return false;
    }
    if !sub_cs2(key, c_hat, w) {
        return false;
    }
    let mut ct0_room = [[0u32; 256]; 8];
    let ct0 = &mut ct0_room[0..key.set.k];
    if !multiply_t0(key, c_hat, ct0) {
        return false;
    }
    let mut hs_room = [[0u8; 256]; 8];
    let hs = &mut hs_room[0..key.set.k];
    if !make_hint(key.set, w, ct0, hs) {
        return false;
    }
    sig_encode(key.set, c_tilde, y, hs, sig);
    true
}

// An attempt with the masks number kappa and on, of the key whose matrix is a: whether it is good. It writes the signature if it is, and nothing else.
pub fn attempt<H: Hash>(
    key: &OpenedKey,
    a: &[[u32; 256]],
    mu: &[u8; 64],
    seed: &[u8; 64],
    kappa: u16,
    sig: &mut [u8],
) -> bool
    requires matrix { MatrixRows H.Hash.hashes (dsa_numbers key.now.set) key.now.bytes.now a.now }
    requires few { kappa + key.now.set.l < 65536 }
    requires long { length sig.old ≡ sig_length (dsa_numbers key.now.set) }
    ensures good { let t = attempt H.Hash.hashes (dsa_numbers key.now.set) key.now.bytes.now mu.now seed.now kappa in
        result ≡ t.good }
    ensures bytes { let t = attempt H.Hash.hashes (dsa_numbers key.now.set) key.now.bytes.now mu.now seed.now kappa in
        sig.new ≡ or_else t sig.old }
{
    let p = key.set;
    let mut y_room = [[0u32; 256]; 7];
    let y = &mut y_room[0..p.l];
    expand_masks::<H>(p, seed, kappa, y);
    let mut w_room = [[0u32; 256]; 8];
    let w = &mut w_room[0..p.k];
    commit::<H>(key, a, y, w);
    let mut c_room = [0u8; 64];
    let c_tilde = &mut c_room[0..p.c_length()];
    hash_commitment::<H>(p, mu, w, c_tilde);
    let c_hat = challenge::<H>(p, c_tilde);
    respond(key, c_tilde, &c_hat, y, w, sig)
}
