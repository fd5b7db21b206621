// Sums of products of rows.
// Loops go by row: the rows may be secret, and this form lowers to plain code that reads the same places whatever they hold.
// Bounds of a row's numbers stand in clauses: rows are plain, since one that is lent to be filled may hold anything before.
ghost use Rattle.std.specs.Prelude.{◌≡◌, ℕ, ◌+◌, ◌*◌, ◌<◌, T, List, [], length, get_or};
ghost use Rattle.standards.specs.Lists.{all_below};
ghost use Rattle.standards.specs.Ring.{add_p, sum_p};
ghost use Rattle.standards.specs.MlKemParts.{multiply_ntts};
ghost use Rattle.standards.specs.MlDsaParts.{multiply_ntt};

use ring::pointwise::zero;
use ring::transform::Transform;
use ring::{dsa, kem};

// Numbers whose transformed polynomials have a product.
pub trait Products: Transform {
    // as the standard has it
    ghost product: { List ℕ → List ℕ → List ℕ };

    // out := f g + out
    fn multiply_add(out: &mut [Self; 256], f: &[Self; 256], g: &[Self; 256])
        requires sum { T (all_below Self.q (Self.numbers out.old)) }
        requires first { T (all_below Self.q (Self.numbers f.now)) }
        requires second { T (all_below Self.q (Self.numbers g.now)) }
        ensures value { Self.numbers out.new ≡ add_p Self.q (product (Self.numbers f.now) (Self.numbers g.now)) (Self.numbers out.old) }
        ensures below { T (all_below Self.q (Self.numbers out.new)) };
}

impl Products for u16 {
    ghost product = { multiply_ntts };

    fn multiply_add(out: &mut [u16; 256], f: &[u16; 256], g: &[u16; 256]) {
        kem::multiply_add(out, f, g);
    }
}

impl Products for u32 {
    ghost product = { multiply_ntt };

    fn multiply_add(out: &mut [u32; 256], f: &[u32; 256], g: &[u32; 256]) {
        dsa::multiply_add(out, f, g);
    }
}

// The sum over all rows j of s of the products of a row first + step * j of a and row j of s: a row of the matrix, a column, or a vector, times s.
pub fn dot<F: Products>(
    a: &[[F; 256]],
    first: usize,
    step: usize,
    s: &[[F; 256]],
    out: &mut [F; 256],
)
    requires within { (j : ℕ) → j < length s.now → first + step * j < length a.now }
    requires left { (j : ℕ) → j < length s.now → T (all_below F.q (F.numbers (get_or a.now (first + step * j) []))) }
    requires right { (j : ℕ) → j < length s.now → T (all_below F.q (F.numbers (get_or s.now j []))) }
    ensures value { F.numbers out.new ≡ sum_p F.q (length s.now) (λ j. F.product (F.numbers (get_or a.now (first + step * j) [])) (F.numbers (get_or s.now j []))) }
    ensures below { T (all_below F.q (F.numbers out.new)) }
{
    *out = zero();
    for j in 0..s.len() {
        F::multiply_add(out, &a[first + step * j], &s[j]);
    }
}
