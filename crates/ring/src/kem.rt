// ML-KEM: polynomials of 256 numbers modulo 3329, one of 16 bits each.
// Loops go by index: the numbers may be secret, and this form lowers to plain code that reads the same places whatever they are.
// Bounds of a row's numbers stand in clauses: rows are plain, since one that is lent to be filled may hold anything before.
ghost use Rattle.std.specs.Prelude.{◌≡◌, ◌+◌, ◌*◌, ◌%◌, ◌<◌, T};
ghost use Rattle.std.proofs.Common.{lit<, lit≤};
ghost use Rattle.standards.specs.Lists.{at, all_below};
ghost use Rattle.standards.specs.MlKemParts.{ntt, ntt_inv, multiply_ntts, multiply_ntts_at};
ghost use Rattle.standards.specs.Ring.{add_p};
ghost use Rattle.algebra.proofs.LayeredTransforms.{kem_forward_layers, kem_inverse_layers};

mod tables;

use crate::number::Modular;
use crate::transform::Transform;
use tables::{gammas, zetas};

impl Transform for u16 {
    ghost root = { 17 };

    ghost LAYERS = { 7 };

    ghost last = { 3303 };

    ghost ntt = { ntt };

    ghost ntt_inv = { ntt_inv };

    ghost few = { lit≤ tt };

    ghost last_below = { lit< tt };

    ghost forward = { kem_forward_layers };

    ghost inverse = { kem_inverse_layers };

    const LAYERS: usize = 7;

    fn zetas() -> &'static [u16] {
        zetas()
    }

    fn last_factor() -> u16 {
        3303
    }
}

// BaseCaseMultiply: the product of a0 + a1 x and b0 + b1 x where x * x is gamma. A sum of two products is below 2^25. The modulus is a literal here, as in
// `number`.
fn base_case_multiply(a0: u16, a1: u16, b0: u16, b1: u16, gamma: u16) -> (u16, u16)
    requires first { (a0 < 3329) × (a1 < 3329) }
    requires second { (b0 < 3329) × (b1 < 3329) }
    requires root { gamma < 3329 }
    ensures low { result.0 ≡ (a0 * b0 + (a1 * b1) % 3329 * gamma) % 3329 }
    ensures high { result.1 ≡ (a0 * b1 + a1 * b0) % 3329 }
{
    let (a0, a1, b0, b1) = (u32::from(a0), u32::from(a1), u32::from(b0), u32::from(b1));
    let low = (a0 * b0 + a1 * b1 % 3329 * u32::from(gamma)) % 3329;
    let high = (a0 * b1 + a1 * b0) % 3329;
    (low as u16, high as u16)
}

// Pair i of a product.
fn multiply_pair(f: &[u16; 256], g: &[u16; 256], i: usize) -> (u16, u16)
    requires place { i < 128 }
    requires first { (at f.now (2 * i) < 3329) × (at f.now (2 * i + 1) < 3329) }
    requires second { T (all_below 3329 g.now) }
    ensures low { result.0 ≡ multiply_ntts_at f.now g.now (2 * i) }
    ensures high { result.1 ≡ multiply_ntts_at f.now g.now (2 * i + 1) }
{
    base_case_multiply(f[2 * i], f[2 * i + 1], g[2 * i], g[2 * i + 1], gammas()[i])
}

// MultiplyNTTs: f := f g, pair by pair
pub fn multiply_ntts(f: &mut [u16; 256], g: &[u16; 256])
    requires first { T (all_below 3329 f.old) }
    requires second { T (all_below 3329 g.now) }
    ensures value { f.new ≡ multiply_ntts f.old g.now }
    ensures below { T (all_below 3329 f.new) }
{
    for i in 0..128 {
        let (low, high) = multiply_pair(f, g, i);
        f[2 * i] = low;
        f[2 * i + 1] = high;
    }
}

// out := f g + out, for sums of products
pub fn multiply_add(out: &mut [u16; 256], f: &[u16; 256], g: &[u16; 256])
    requires sum { T (all_below 3329 out.old) }
    requires first { T (all_below 3329 f.now) }
    requires second { T (all_below 3329 g.now) }
    ensures value { out.new ≡ add_p 3329 (multiply_ntts f.now g.now) out.old }
    ensures below { T (all_below 3329 out.new) }
{
    for i in 0..128 {
        let (low, high) = multiply_pair(f, g, i);
        let (low, high) = (low.add_mod(out[2 * i]), high.add_mod(out[2 * i + 1]));
        out[2 * i] = low;
        out[2 * i + 1] = high;
    }
}
