// Power2Round, HighBits, LowBits, MakeHint and UseHint, in whole numbers.
// There is no branch on a number: gamma2 is public, and each division is by a constant, which the compiler turns into a product and a shift.
// Loops go by index: the numbers may be secret, and this form lowers to plain code that reads the same places whatever they are.
// Bounds of a row's numbers stand in clauses: rows are plain, since one that is lent to be filled may hold anything before.
#![tactic(auto, using(crate::proofs::Numbers::number_loops))]

ghost use Rattle.std.specs.Prelude.{◌≡◌, ◌+◌, ◌-◌, ◌%◌, ◌<◌, T};
ghost use Rattle.standards.specs.Lists.{all_below};
ghost use Rattle.standards.specs.Ring.{zero_p, add_p, sub_p};
ghost use Rattle.standards.specs.MlDsaParts.{power2_round1, power2_round0, high_bits, low_bits, make_hint, use_hint, power2_round1_p, power2_round0_p, high_bits_p, low_bits_p, make_hint_p, use_hint_p};
ghost use Rattle.mldsa_parts.specs.Gammas.{IsGamma2};

use crate::Q;
use crate::gamma2::Gamma2;

// At most 1,023.
fn power2_high(r: u32) -> u32
    requires { r < 8380417 }
    ensures { result ≡ power2_round1 r }
{
    (r + 4095) / 8192
}

fn power2_low(r: u32) -> u32
    requires { r < 8380417 }
    ensures { result ≡ power2_round0 r }
{
    (r + (Q - 8192 * power2_high(r))) % Q
}

// The high bits by 2 G, a constant in each of the two copies, whose fact is a clause, since a const parameter has no type that could hold it. Where r - r0 is q - 1 the quotient is their number, and stands for 0.
fn high_by<const G: u32>(r: u32) -> u32
    requires set { IsGamma2 G }
    requires below { r < 8380417 }
    ensures { result ≡ high_bits G r }
{
    (r + (G - 1)) / (2 * G) % ((Q - 1) / (2 * G))
}

// The choice picks a constant for the compiler, so that the division becomes a product and a shift.
fn high_number(gamma2: Gamma2, r: u32) -> u32
    requires { r < 8380417 }
    ensures value { result ≡ high_bits gamma2.value r }
    ensures below { result < 8380417 }
{
    if gamma2.value == 95232 {
        high_by::<95232>(r)
    } else {
        high_by::<261888>(r)
    }
}

// r less 2 gamma2 times its high bits, modulo q.
fn low_number(gamma2: Gamma2, r: u32) -> u32
    requires { r < 8380417 }
    ensures value { result ≡ low_bits gamma2.value r }
    ensures below { result < 8380417 }
{
    (r + (Q - 2 * gamma2.value * high_number(gamma2, r))) % Q
}

// Adding -ct to v + ct gives v again.
fn make_hint_number(gamma2: Gamma2, v: u32, ct: u32) -> u8
    requires { (v < 8380417) × (ct < 8380417) }
    ensures { result ≡ make_hint gamma2.value ((0 + (8380417 - ct % 8380417)) % 8380417) ((v + ct) % 8380417) }
{
    u8::from(high_number(gamma2, (v + ct) % Q) != high_number(gamma2, v))
}

// The high bits go one up, or one down (m - 1 up), modulo their number m, a constant in each of the two copies.
fn use_hint_by<const G: u32>(b: u8, r: u32) -> u32
    requires set { IsGamma2 G }
    requires below { r < 8380417 }
    ensures { result ≡ use_hint G b r }
{
    let m = (Q - 1) / (2 * G);
    let low = low_number(Gamma2 { value: G }, r);
    let up = u32::from(low > 0) * u32::from(2 * low <= Q);
    let step = up + (1 - up) * (m - 1);
    (high_by::<G>(r) + u32::from(b != 0) * step) % m
}

// The same choice of a constant as for the high bits.
fn use_hint_number(gamma2: Gamma2, b: u8, r: u32) -> u32
    requires { r < 8380417 }
    ensures value { result ≡ use_hint gamma2.value b r }
    ensures below { result < 8380417 }
{
    if gamma2.value == 95232 {
        use_hint_by::<95232>(b, r)
    } else {
        use_hint_by::<261888>(b, r)
    }
}

// Power2Round, number by number: the high parts take the place of t.
pub fn power2_round(t: &mut [u32; 256], low: &mut [u32; 256])
    requires { T (all_below 8380417 t.old) }
    ensures high { t.new ≡ power2_round1_p t.old }
    ensures low { low.new ≡ power2_round0_p t.old }
    ensures below { T (all_below 8380417 low.new) }
{
    for i in 0..256 {
        let r = t[i];
        t[i] = power2_high(r);
        low[i] = power2_low(r);
    }
}

// HighBits, number by number.
pub fn high_bits(gamma2: Gamma2, f: &mut [u32; 256])
    requires { T (all_below 8380417 f.old) }
    ensures value { f.new ≡ high_bits_p gamma2.value f.old }
    ensures below { T (all_below 8380417 f.new) }
{
    for i in 0..256 {
        f[i] = high_number(gamma2, f[i]);
    }
}

// LowBits, number by number, modulo q.
pub fn low_bits(gamma2: Gamma2, f: &mut [u32; 256])
    requires { T (all_below 8380417 f.old) }
    ensures value { f.new ≡ low_bits_p gamma2.value f.old }
    ensures below { T (all_below 8380417 f.new) }
{
    for i in 0..256 {
        f[i] = low_number(gamma2, f[i]);
    }
}

// MakeHint of -ct and v + ct, number by number.
pub fn make_hint(gamma2: Gamma2, v: &[u32; 256], ct: &[u32; 256], h: &mut [u8; 256])
    requires { (T (all_below 8380417 v.now)) × (T (all_below 8380417 ct.now)) }
    ensures { h.new ≡ make_hint_p gamma2.value (sub_p 8380417 zero_p ct.now) (add_p 8380417 v.now ct.now) }
{
    for i in 0..256 {
        h[i] = make_hint_number(gamma2, v[i], ct[i]);
    }
}

// UseHint, number by number. Verification alone calls it, so the numbers are public; the loop has the one form that serves this file.
pub fn use_hint(gamma2: Gamma2, h: &[u8; 256], f: &mut [u32; 256])
    requires { T (all_below 8380417 f.old) }
    ensures value { f.new ≡ use_hint_p gamma2.value h.now f.old }
    ensures below { T (all_below 8380417 f.new) }
{
    for i in 0..256 {
        f[i] = use_hint_number(gamma2, h[i], f[i]);
    }
}
