// w'Approx: the matrix times z, less the challenge times t1 2^13. All of it is public, so the loop walks rows. The room for the matrix is for the largest set,
// since memory is fixed.
// Bounds of a row's numbers stand in clauses: rows are plain, since one that is lent to be filled may hold anything before.
ghost use Rattle.std.specs.Prelude.{◌≡◌, ◌+◌, ◌*◌, ◌<◌, ◌≤◌, T, length};
ghost use Rattle.standards.specs.Lists.{tables, all_below};
ghost use Rattle.standards.specs.Ring.{sub_p};
ghost use Rattle.standards.specs.MlDsaParts.{ntt_inv, multiply_ntt as multiplied};
ghost use Rattle.standards.specs.MlDsa.{pk_length};
ghost use Rattle.algebra.specs.RowArrays.{RowsBelow};
ghost use Rattle.sets.specs.Sets.{dsa_numbers};
ghost use Rattle.mldsa_verifying.specs.Steps.{t1_hat, w_row, w_step};

use hash::Hash;
use mldsa_challenge::challenge;
use mldsa_expand::expand_a;
use mldsa_parts::encoding::{T1_BITS, scale_t1};
use packing::unpack;
use ring::dsa::multiply_ntt;
use ring::pointwise::sub;
use ring::poly::Poly;
use ring::transform::{ntt, ntt_inverse};
use rows::products::dot;
use sets::types::DsaSet;

// Row i of t1, times 2^13 and transformed. rho, of 32 bytes, stands before the rows.
fn t1_row(pk: &[u8], i: usize, f: &mut [u32; 256])
    requires { 32 + 320 * i + 320 ≤ length pk.now }
    ensures value { f.new ≡ t1_hat pk.now i }
    ensures below { T (all_below 8380417 f.new) }
{
    let start = 32 + 320 * i;
    unpack(T1_BITS, &pk[start..start + 320], f);
    scale_t1(f);
    ntt(f);
}

// Takes c times row i of t1 from f, a row of the matrix times z, and transforms back.
fn sub_t1_row(pk: &[u8], c: &Poly<u32>, i: usize, f: &mut [u32; 256])
    requires key { 32 + 320 * i + 320 ≤ length pk.now }
    requires below { T (all_below 8380417 f.old) }
    ensures value { f.new ≡ ntt_inv (sub_p 8380417 f.old (multiplied c.now.c (t1_hat pk.now i))) }
    ensures below { T (all_below 8380417 f.new) }
{
    let mut t1 = [0u32; 256];
    t1_row(pk, i, &mut t1);
    let mut product = c.c;
    multiply_ntt(&mut product, &t1);
    sub(f, &product);
    ntt_inverse(f);
}

// The rows of w', with the matrix drawn and the rows of z transformed already.
fn w_rows(
    p: DsaSet,
    pk: &[u8],
    a: &[[u32; 256]],
    c: &Poly<u32>,
    z: &[[u32; 256]],
    w: &mut [[u32; 256]],
)
    requires key { length pk.now ≡ pk_length (dsa_numbers p) }
    requires rows { (length z.now ≡ p.l) × (length w.old ≡ p.k) }
    requires matrix { length a.now ≡ p.k * p.l }
    requires left { RowsBelow 8380417 (length a.now) a.now }
    requires right { RowsBelow 8380417 p.l z.now }
    ensures value { w.new ≡ tables p.k (w_row p.l pk.now a.now c.now.c z.now) }
    ensures below { RowsBelow 8380417 p.k w.new }
{
    for (i, row) in w.iter_mut().enumerate() {
        dot(a, p.l * i, 1, z, row);
        sub_t1_row(pk, c, i, row);
    }
}

// The rows of w' of a public key, a commitment hash and the rows of z, which are transformed already. What ExpandA answers is not looked at: the noughts that
// fill an entry whose draw fell short leave products as they are, and the verdict is stated of draws that fall short too.
pub(crate) fn approximate<H: Hash>(
    p: DsaSet,
    pk: &[u8],
    c: &[u8],
    z: &[[u32; 256]],
    w: &mut [[u32; 256]],
)
    requires key { length pk.now ≡ pk_length (dsa_numbers p) }
    requires rows { (length z.now ≡ p.l) × (length w.old ≡ p.k) }
    requires right { RowsBelow 8380417 p.l z.now }
    ensures value { w.new ≡ w_step H.Hash.hashes (dsa_numbers p) pk.now c.now z.now }
    ensures below { RowsBelow 8380417 p.k w.new }
{
    let mut room = [[0u32; 256]; 56];
    let a = &mut room[0..p.k * p.l];
    expand_a::<H>(p, &pk[0..32], a);
    let challenge = challenge::<H>(p, c);
    w_rows(p, pk, a, &challenge, z, w);
}
