// The transforms of both schemes in place, over the powers of a root of unity: all layers, and for the inverse the last factor.
// Loops go by the layers' numbers, for the numbers of the row may be secret: branches and places are known from the layers alone.
// Bounds of a row's numbers stand in clauses: rows are plain, since one that is lent to be filled may hold anything before.
ghost use Rattle.std.specs.Prelude.{◌≡◌, ℕ, ◌^◌, ◌<◌, ◌≤◌, T, List, map};
ghost use Rattle.standards.specs.Lists.{all_below};
ghost use Rattle.standards.specs.Ring.{Poly};
ghost use Rattle.algebra.specs.Modular.{scaled};
ghost use Rattle.algebra.specs.Layers.{forward_layers, inverse_layers, zeta_table, Factors};

use crate::butterfly::{CooleyTukey, GentlemanSande};
use crate::layer::layer;
use crate::number::Modular;
use crate::pointwise::scale;

// Numbers over whose polynomials there is a transform.
pub trait Transform: Modular + 'static {
    // the root of unity, the number of layers, and the factor that ends the inverse
    ghost root: { ℕ };

    ghost LAYERS: { ℕ };

    ghost last: { ℕ };

    // NTT and its inverse, as the standard has them
    ghost ntt: { List ℕ → List ℕ };

    ghost ntt_inv: { List ℕ → List ℕ };

    const LAYERS: usize;

    // The factors of all layers.
    fn zetas() -> &'static [Self]
        ensures { Self.numbers result.now ≡ zeta_table Self.q root LAYERS };

    fn last_factor() -> Self
        ensures { Self.value result ≡ last };

    ghost few: { LAYERS ≤ 8 };

    ghost last_below: { last < Self.q };

    ghost forward: { (f : List ℕ) → Poly Self.q f → ntt f ≡ forward_layers Self.q (zeta_table Self.q root LAYERS) LAYERS f };

    ghost inverse: { (f : List ℕ) → ntt_inv f ≡ scaled Self.q last (inverse_layers Self.q (zeta_table Self.q root LAYERS) LAYERS LAYERS f) };
}

// The layer with the longest blocks comes first. Over any factors and any number of layers, which `ntt` takes from the scheme: what is proved of
// layers is apart from the two schemes' laws.
fn forward<F: Modular>(f: &mut [F; 256], zetas: &[F], layers: usize)
    requires few { layers ≤ 8 }
    requires factors { Factors F.q (2 ^ layers) (map F.value zetas.now) }
    requires poly { Poly F.q (map F.value f.old) }
    ensures { map F.value f.new ≡ forward_layers F.q (map F.value zetas.now) layers (map F.value f.old) }
{
    for l in 0..layers {
        layer::<CooleyTukey, F>(f, zetas, l);
    }
}

// The layer with the shortest blocks comes first.
fn inverse<F: Modular>(f: &mut [F; 256], zetas: &[F], layers: usize)
    requires few { layers ≤ 8 }
    requires factors { Factors F.q (2 ^ layers) (map F.value zetas.now) }
    requires poly { Poly F.q (map F.value f.old) }
    ensures { map F.value f.new ≡ inverse_layers F.q (map F.value zetas.now) layers layers (map F.value f.old) }
{
    for l in 0..layers {
        layer::<GentlemanSande, F>(f, zetas, layers - 1 - l);
    }
}

// NTT
pub fn ntt<F: Transform>(f: &mut [F; 256])
    requires { T (all_below F.q (F.numbers f.old)) }
    ensures value { F.numbers f.new ≡ F.ntt (F.numbers f.old) }
    ensures below { T (all_below F.q (F.numbers f.new)) }
{
    forward(f, F::zetas(), F::LAYERS);
}

// The inverse of NTT
pub fn ntt_inverse<F: Transform>(f: &mut [F; 256])
    requires { T (all_below F.q (F.numbers f.old)) }
    ensures value { F.numbers f.new ≡ F.ntt_inv (F.numbers f.old) }
    ensures below { T (all_below F.q (F.numbers f.new)) }
{
    inverse(f, F::zetas(), F::LAYERS);
    scale(f, F::last_factor());
}
