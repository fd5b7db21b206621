// A polynomial that stands alone: its numbers are below q wherever it goes. The functions on rows work on `&mut p.c`, and what they ensure keeps
// it so. Vectors and matrices are slices of plain rows: one that is lent to be filled may hold anything before.
ghost use Rattle.std.specs.Prelude.{◌≡◌, T};
ghost use Rattle.standards.specs.Lists.{all_below};
ghost use Rattle.standards.specs.Ring.{zero_p};

use crate::number::Modular;
use crate::pointwise::zero;
use std::alloc::AllocError;

pub struct Poly<F: Modular> {
    pub c: [F; 256],
    ghost below: { T (all_below F.q (F.numbers c)) },
}

// By hand: a derive, `derive_where` too, is refused for a type with a parameter and a ghost field.
impl<F: Modular> Clone for Poly<F> {
    ghost is_clone = { λ x y. y ≡ x };

    ghost is_infallible = { λ _. Unit {0} };

    fn clone(&self) -> Result<Self, AllocError> {
        Ok(*self)
    }
}

impl<F: Modular> Copy for Poly<F> {}

impl<F: Modular> Poly<F> {
    pub fn zero() -> Self
        ensures { F.numbers result.c ≡ zero_p }
    {
        Poly { c: zero() }
    }
}
