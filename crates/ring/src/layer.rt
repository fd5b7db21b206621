// One layer of a transform, in place: blocks of 2 `len` numbers, each with a factor of its own, and in each block `len` butterflies.
// Loops go by index: the numbers may be secret, and this form lowers to plain code whose branches and places are known from the layer alone.
// Clauses inside this crate speak of `map value`, which goes word by word as the loops do; those of its public functions speak of `numbers`.
// Bounds of a row's numbers stand in clauses: rows are plain, since one that is lent to be filled may hold anything before.
ghost use Rattle.std.specs.Prelude.{◌≡◌, ◌+◌, ◌*◌, ◌/◌, ◌^◌, ◌<◌, ◌≤◌, map};
ghost use Rattle.standards.specs.Lists.{at};
ghost use Rattle.standards.specs.Ring.{Poly};
ghost use Rattle.algebra.specs.Layers.{block_to, layer_to, Factors};

use crate::butterfly::Butterfly;
use crate::number::Modular;

// One block: its butterflies take two numbers that stand `len` apart. `start` and `len` are the standards' own loop variables and count places of the
// whole row, of which the laws of a layer speak; a slice of the block alone would count anew and need a second law to say where it stands.
fn block<B: Butterfly, F: Modular>(f: &mut [F; 256], start: usize, len: usize, z: F)
    requires fits { start + 2 * len ≤ 256 }
    requires factor { F.value z < F.q }
    requires poly { Poly F.q (map F.value f.old) }
    ensures { map F.value f.new ≡ block_to (B.low F.q (F.value z)) (B.high F.q (F.value z)) start len len (map F.value f.old) }
{
    for d in 0..len {
        let (x, y) = B::turn(z, f[start + d], f[start + len + d]);
        f[start + len + d] = y;
        f[start + d] = x;
    }
}

// Layer l: 2^l blocks.
pub fn layer<B: Butterfly, F: Modular>(f: &mut [F; 256], zetas: &[F], l: usize)
    requires few { l < 8 }
    requires factors { Factors F.q (2 * 2 ^ l) (map F.value zetas.now) }
    requires poly { Poly F.q (map F.value f.old) }
    ensures { map F.value f.new ≡ layer_to (B.low F.q) (B.high F.q) (λ m. at (map F.value zetas.now) (B.place (2 ^ l) m)) (128 / 2 ^ l) (2 ^ l) (map F.value f.old) }
{
    let len = 128 >> l;
    let blocks = 1 << l;
    for b in 0..blocks {
        let z = zetas[B::place(blocks, b)];
        block::<B, F>(f, 2 * len * b, len, z);
    }
}
