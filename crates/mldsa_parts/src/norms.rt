// Tests of infinity norms. Every number is looked at, whatever the ones before it were.
// Loops go by index, which lowers to plain code that reads the same places whatever the numbers are.
// Bounds of a row's numbers stand in clauses: rows are plain, since one that is lent to be filled may hold anything before.
ghost use Rattle.std.specs.Prelude.{◌≡◌, ◌<◌, T, length, nat_lt};
ghost use Rattle.standards.specs.Lists.{all_below};
ghost use Rattle.standards.specs.Ring.{magnitude as magnitude_of, norm, norms as norms_of};
ghost use Rattle.algebra.specs.RowArrays.{RowsBelow};

use crate::Q;

// How far a number is from 0, without a branch.
fn magnitude(x: u32) -> u32
    requires { x < 8380417 }
    ensures { result ≡ magnitude_of 8380417 x }
{
    let over = u32::from(x > 4190208);
    over * (Q - x) + (1 - over) * x
}

// Whether the norm of a polynomial is below a bound.
#[tactic(auto, using(algebra::proofs::Tables::at_small))]
pub fn norm_below(f: &[u32; 256], bound: u32) -> bool
    requires some { 0 < bound }
    requires below { T (all_below 8380417 f.now) }
    ensures { result ≡ nat_lt (norm 8380417 f.now) bound }
{
    let mut small = true;
    for i in 0..256 {
        small &= magnitude(f[i]) < bound;
    }
    small
}

// Whether the norm of a vector is below a bound: row by row, as above number by number.
pub fn norms_below(v: &[[u32; 256]], bound: u32) -> bool
    requires some { 0 < bound }
    requires below { RowsBelow 8380417 (length v.now) v.now }
    ensures { result ≡ nat_lt (norms_of 8380417 v.now) bound }
{
    let mut small = true;
    for i in 0..v.len() {
        small &= norm_below(&v[i], bound);
    }
    small
}
