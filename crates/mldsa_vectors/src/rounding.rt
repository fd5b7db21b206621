// Rounding and hints, row by row.
// Loops go by row: the rows may be secret, and this form lowers to plain code that reads the same places whatever they hold.
// Each function is one loop around a step with a law of its own. One function over a trait of steps was tried, and proved: it is for steps on one row
// alone, and each impl says the step's law again in more lines than the loop has. A closure would be called on rows that may be secret.
// Bounds of a row's numbers stand in clauses: rows are plain, since one that is lent to be filled may hold anything before.
#![tactic(auto, using(mldsa_laws::proofs::RowLoops::rows_are))]

ghost use Rattle.std.specs.Prelude.{◌≡◌, length};
ghost use Rattle.standards.specs.Lists.{row_at, tables};
ghost use Rattle.standards.specs.Ring.{zero_p, add_p, sub_p};
ghost use Rattle.standards.specs.MlDsaParts.{power2_round1_p, power2_round0_p, high_bits_p, low_bits_p, make_hint_p, use_hint_p};
ghost use Rattle.algebra.specs.RowArrays.{RowsBelow};

use mldsa_parts::gamma2::Gamma2;
use mldsa_parts::rounding::{high_bits, low_bits, make_hint, power2_round, use_hint};

// Power2Round: the rows of t become the high parts, those of low the low parts.
pub fn power2_round_rows(t: &mut [[u32; 256]], low: &mut [[u32; 256]])
    requires long { length low.old ≡ length t.old }
    requires below { RowsBelow 8380417 (length t.old) t.old }
    ensures high { t.new ≡ tables (length t.old) (λ i. power2_round1_p (row_at t.old i)) }
    ensures low { low.new ≡ tables (length t.old) (λ i. power2_round0_p (row_at t.old i)) }
    ensures below { RowsBelow 8380417 (length t.old) low.new }
{
    for i in 0..t.len() {
        power2_round(&mut t[i], &mut low[i]);
    }
}

// HighBits of each row.
pub fn high_bits_rows(gamma2: Gamma2, v: &mut [[u32; 256]])
    requires { RowsBelow 8380417 (length v.old) v.old }
    ensures { v.new ≡ tables (length v.old) (λ i. high_bits_p gamma2.value (row_at v.old i)) }
{
    for i in 0..v.len() {
        high_bits(gamma2, &mut v[i]);
    }
}

// LowBits of each row.
pub fn low_bits_rows(gamma2: Gamma2, v: &mut [[u32; 256]])
    requires { RowsBelow 8380417 (length v.old) v.old }
    ensures value { v.new ≡ tables (length v.old) (λ i. low_bits_p gamma2.value (row_at v.old i)) }
    ensures below { RowsBelow 8380417 (length v.old) v.new }
{
    for i in 0..v.len() {
        low_bits(gamma2, &mut v[i]);
    }
}

// MakeHint of -ct and v + ct.
pub fn make_hint_rows(gamma2: Gamma2, v: &[[u32; 256]], ct: &[[u32; 256]], hs: &mut [[u8; 256]])
    requires long { (length v.now ≡ length hs.old) × (length ct.now ≡ length hs.old) }
    requires left { RowsBelow 8380417 (length v.now) v.now }
    requires right { RowsBelow 8380417 (length ct.now) ct.now }
    ensures { hs.new ≡ tables (length hs.old) (λ i. make_hint_p gamma2.value (sub_p 8380417 zero_p (row_at ct.now i)) (add_p 8380417 (row_at v.now i) (row_at ct.now i))) }
{
    for i in 0..hs.len() {
        make_hint(gamma2, &v[i], &ct[i], &mut hs[i]);
    }
}

// UseHint of each row. Verification alone calls it, so the rows are public; the loop has the one form that serves this file.
pub fn use_hint_rows(gamma2: Gamma2, hs: &[[u8; 256]], v: &mut [[u32; 256]])
    requires long { length hs.now ≡ length v.old }
    requires below { RowsBelow 8380417 (length v.old) v.old }
    ensures { v.new ≡ tables (length v.old) (λ i. use_hint_p gamma2.value (row_at hs.now i) (row_at v.old i)) }
{
    for i in 0..v.len() {
        use_hint(gamma2, &hs[i], &mut v[i]);
    }
}
