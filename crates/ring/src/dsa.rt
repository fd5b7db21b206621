// ML-DSA: polynomials of 256 numbers modulo 8380417, one of 32 bits each.
// Loops go by index: the numbers may be secret, and this form lowers to plain code that reads the same places whatever they are.
// Bounds of a row's numbers stand in clauses: rows are plain, since one that is lent to be filled may hold anything before.
ghost use Rattle.std.specs.Prelude.{◌≡◌, T};
ghost use Rattle.std.proofs.Common.{lit<, lit≤};
ghost use Rattle.standards.specs.Lists.{all_below};
ghost use Rattle.standards.specs.MlDsaParts.{ntt, ntt_inv, multiply_ntt};
ghost use Rattle.standards.specs.Ring.{add_p};
ghost use Rattle.algebra.proofs.LayeredTransforms.{dsa_forward_layers, dsa_inverse_layers};

mod tables;

use crate::number::Modular;
use crate::transform::Transform;
use tables::zetas;

impl Transform for u32 {
    ghost root = { 1753 };

    ghost LAYERS = { 8 };

    ghost last = { 8347681 };

    ghost ntt = { ntt };

    ghost ntt_inv = { ntt_inv };

    ghost few = { lit≤ tt };

    ghost last_below = { lit< tt };

    ghost forward = { dsa_forward_layers };

    ghost inverse = { dsa_inverse_layers };

    const LAYERS: usize = 8;

    fn zetas() -> &'static [u32] {
        zetas()
    }

    fn last_factor() -> u32 {
        8347681
    }
}

// MultiplyNTT: f := f g, number by number
pub fn multiply_ntt(f: &mut [u32; 256], g: &[u32; 256])
    requires first { T (all_below 8380417 f.old) }
    requires second { T (all_below 8380417 g.now) }
    ensures value { f.new ≡ multiply_ntt f.old g.now }
    ensures below { T (all_below 8380417 f.new) }
{
    for i in 0..256 {
        f[i] = f[i].mul_mod(g[i]);
    }
}

// out := f g + out, for sums of products
pub fn multiply_add(out: &mut [u32; 256], f: &[u32; 256], g: &[u32; 256])
    requires sum { T (all_below 8380417 out.old) }
    requires first { T (all_below 8380417 f.now) }
    requires second { T (all_below 8380417 g.now) }
    ensures value { out.new ≡ add_p 8380417 (multiply_ntt f.now g.now) out.old }
    ensures below { T (all_below 8380417 out.new) }
{
    for i in 0..256 {
        out[i] = f[i].mul_mod(g[i]).add_mod(out[i]);
    }
}
