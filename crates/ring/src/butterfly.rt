// The two butterflies: what a layer does with two numbers and a factor, and which factor each block of the layer takes.
ghost use Rattle.std.specs.Prelude.{◌≡◌, ℕ, ◌+◌, ◌-◌, ◌*◌, ◌<◌, ◌≤◌};
ghost use Rattle.algebra.specs.Layers.{ct_low, ct_high, gs_low, gs_high};
ghost use Rattle.std.proofs.Common.{mod-lt};

use crate::number::Modular;

pub trait Butterfly {
    // the low number and the high one, of q, the factor and two numbers
    ghost low: { ℕ → ℕ → ℕ → ℕ → ℕ };

    ghost high: { ℕ → ℕ → ℕ → ℕ → ℕ };

    // which of the factors block b of a layer of so many blocks takes
    ghost place: { ℕ → ℕ → ℕ };

    fn turn<F: Modular>(z: F, x: F, y: F) -> (F, F)
        requires { (F.value z < F.q) × ((F.value x < F.q) × (F.value y < F.q)) }
        ensures low { F.value result.0 ≡ low F.q (F.value z) (F.value x) (F.value y) }
        ensures high { F.value result.1 ≡ high F.q (F.value z) (F.value x) (F.value y) };

    fn place(blocks: usize, b: usize) -> usize
        requires { (blocks ≤ 128) × (b < blocks) }
        ensures value { result ≡ place blocks b }
        ensures within { result < 2 * blocks };

    ghost low_below: { (q z x y : ℕ) → 0 < q → low q z x y < q };

    ghost high_below: { (q z x y : ℕ) → 0 < q → high q z x y < q };
}

// Cooley and Tukey's, of the transform: x + z y and x - z y. The factors of a layer follow one another.
pub struct CooleyTukey;

impl Butterfly for CooleyTukey {
    ghost low = { ct_low };

    ghost high = { ct_high };

    ghost place = { λ n b. n + b };

    ghost low_below = { λ q z x y p. mod-lt _ p };

    ghost high_below = { λ q z x y p. mod-lt _ p };

    fn turn<F: Modular>(z: F, x: F, y: F) -> (F, F) {
        let t = z.mul_mod(y);
        (x.add_mod(t), x.sub_mod(t))
    }

    fn place(blocks: usize, b: usize) -> usize {
        blocks + b
    }
}

// Gentleman and Sande's, of the inverse: x + y and z (y - x). The factors go from the layer's last one down.
pub struct GentlemanSande;

impl Butterfly for GentlemanSande {
    ghost low = { gs_low };

    ghost high = { gs_high };

    ghost place = { λ n b. 2 * n - 1 - b };

    ghost low_below = { λ q z x y p. mod-lt _ p };

    ghost high_below = { λ q z x y p. mod-lt _ p };

    fn turn<F: Modular>(z: F, x: F, y: F) -> (F, F) {
        let t = y.sub_mod(x);
        (x.add_mod(y), z.mul_mod(t))
    }

    fn place(blocks: usize, b: usize) -> usize {
        2 * blocks - 1 - b
    }
}
