// Transforms and products of rows. In every contract row i of the result is an equation of its own; all numbers stay below q.
// Loops go by row: the rows may be secret, and this form lowers to plain code that reads the same places whatever they hold.
// Each function is one loop around a step with a law of its own. One function over a trait of steps was tried, and proved: it is for steps on one row
// alone, and each impl says the step's law again in more lines than the loop has. A closure would be called on rows that may be secret.
// Bounds of a row's numbers stand in clauses: rows are plain, since one that is lent to be filled may hold anything before.
#![tactic(auto, using(mldsa_laws::proofs::RowLoops::rows_are))]

ghost use Rattle.std.specs.Prelude.{◌≡◌, ◌+◌, ◌*◌, ◌≤◌, T, length};
ghost use Rattle.standards.specs.Lists.{row_at, tables, all_below};
ghost use Rattle.standards.specs.Ring.{add_p, sub_p, sum_p};
ghost use Rattle.standards.specs.MlDsaParts.{ntt as dsa_ntt, ntt_inv, multiply_ntt};
ghost use Rattle.algebra.specs.RowArrays.{RowsBelow};

use ring::dsa::multiply_ntt;
use ring::pointwise::{add, sub};
use ring::poly::Poly;
use ring::transform::{ntt, ntt_inverse};
use rows::products::dot;

// NTT of each row.
pub fn ntt_rows(v: &mut [[u32; 256]])
    requires { RowsBelow 8380417 (length v.old) v.old }
    ensures value { v.new ≡ tables (length v.old) (λ i. dsa_ntt (row_at v.old i)) }
    ensures below { RowsBelow 8380417 (length v.old) v.new }
{
    for i in 0..v.len() {
        ntt(&mut v[i]);
    }
}

// Adds the rows of s to those of t.
pub fn add_rows(t: &mut [[u32; 256]], s: &[[u32; 256]])
    requires long { length s.now ≡ length t.old }
    requires left { RowsBelow 8380417 (length t.old) t.old }
    requires right { RowsBelow 8380417 (length s.now) s.now }
    ensures value { t.new ≡ tables (length t.old) (λ i. add_p 8380417 (row_at t.old i) (row_at s.now i)) }
    ensures below { RowsBelow 8380417 (length t.old) t.new }
{
    for i in 0..t.len() {
        add(&mut t[i], &s[i]);
    }
}

// The matrix a, row after row, times s, transformed back.
pub fn matrix_product(a: &[[u32; 256]], s: &[[u32; 256]], w: &mut [[u32; 256]])
    requires within { length s.now * length w.old ≤ length a.now }
    requires left { RowsBelow 8380417 (length a.now) a.now }
    requires right { RowsBelow 8380417 (length s.now) s.now }
    ensures value { w.new ≡ tables (length w.old) (λ i. ntt_inv (sum_p 8380417 (length s.now) (λ j. multiply_ntt (row_at a.now (length s.now * i + j)) (row_at s.now j)))) }
    ensures below { RowsBelow 8380417 (length w.old) w.new }
{
    for i in 0..w.len() {
        dot(a, s.len() * i, 1, s, &mut w[i]);
        ntt_inverse(&mut w[i]);
    }
}

// c times s, transformed back.
fn product(c: &Poly<u32>, s: &[u32; 256]) -> [u32; 256]
    requires right { T (all_below 8380417 s.now) }
    ensures value { result ≡ ntt_inv (multiply_ntt c.now.c s.now) }
    ensures below { T (all_below 8380417 result) }
{
    let mut f = c.c;
    multiply_ntt(&mut f, s);
    ntt_inverse(&mut f);
    f
}

// c times each row of s, transformed back.
pub fn products(c: &Poly<u32>, s: &[[u32; 256]], out: &mut [[u32; 256]])
    requires long { length s.now ≡ length out.old }
    requires right { RowsBelow 8380417 (length s.now) s.now }
    ensures value { out.new ≡ tables (length out.old) (λ i. ntt_inv (multiply_ntt c.now.c (row_at s.now i))) }
    ensures below { RowsBelow 8380417 (length out.old) out.new }
{
    for i in 0..out.len() {
        out[i] = product(c, &s[i]);
    }
}

// Adds c times each row of s to the rows of v.
pub fn add_products(v: &mut [[u32; 256]], c: &Poly<u32>, s: &[[u32; 256]])
    requires long { length s.now ≡ length v.old }
    requires rows { RowsBelow 8380417 (length v.old) v.old }
    requires right { RowsBelow 8380417 (length s.now) s.now }
    ensures value { v.new ≡ tables (length v.old) (λ i. add_p 8380417 (row_at v.old i) (ntt_inv (multiply_ntt c.now.c (row_at s.now i)))) }
    ensures below { RowsBelow 8380417 (length v.old) v.new }
{
    for i in 0..v.len() {
        add(&mut v[i], &product(c, &s[i]));
    }
}

// Takes c times each row of s from the rows of v.
pub fn sub_products(v: &mut [[u32; 256]], c: &Poly<u32>, s: &[[u32; 256]])
    requires long { length s.now ≡ length v.old }
    requires rows { RowsBelow 8380417 (length v.old) v.old }
    requires right { RowsBelow 8380417 (length s.now) s.now }
    ensures value { v.new ≡ tables (length v.old) (λ i. sub_p 8380417 (row_at v.old i) (ntt_inv (multiply_ntt c.now.c (row_at s.now i)))) }
    ensures below { RowsBelow 8380417 (length v.old) v.new }
{
    for i in 0..v.len() {
        sub(&mut v[i], &product(c, &s[i]));
    }
}
