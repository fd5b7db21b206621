// ExpandA, ExpandS and ExpandMask: matrices and vectors out of a seed, row by row.
// The matrix is public, and its loop walks the rows. Small polynomials and masks are secret: their loops go by index, which lowers to plain code.
// Every row is drawn and stated whatever the draws before it were, so what ExpandA and ExpandS answer is a `bool` and no reason to stop.
// Bounds of a row's numbers stand in clauses: rows are plain, since one that is lent to be filled may hold anything before.
#![tactic(auto, using(mldsa_laws::proofs::RowLoops::rows_are))]

ghost use Rattle.std.specs.Prelude.{◌≡◌, ◌+◌, ◌*◌, ◌/◌, ◌%◌, ◌<◌, ◌≤◌, T, ◌⊎◌, length};
ghost use Rattle.standards.specs.Lists.{tables, all_full};
ghost use Rattle.standards.specs.MlDsaParts.{expand_a, expand_s, expand_mask};
ghost use Rattle.algebra.specs.RowArrays.{RowsBelow, RowsAre};
ghost use Rattle.mldsa_laws.specs.Steps.{padded, entry_at};
ghost use Rattle.sets.specs.Sets.{dsa_numbers};

use hash::Hash;
use mldsa_sampling::bounded::rej_bounded_poly;
use mldsa_sampling::mask::expand_mask;
use mldsa_sampling::uniform::rej_ntt_poly;
use sets::types::DsaSet;

// ExpandA: the matrix of rho, row after row: whether every draw was full. The empty places of one that fell short are noughts.
pub fn expand_a<H: Hash>(p: DsaSet, rho: &[u8], a: &mut [[u32; 256]]) -> bool
    requires long { length a.old ≡ p.k * p.l }
    ensures drawn { result ≡ all_full (tables (p.k * p.l) (λ n. expand_a H.Hash.hashes rho.now (n / p.l) (n % p.l))) }
    ensures value { RowsAre (p.k * p.l) (entry_at H.Hash.hashes p.l rho.now) a.new }
    ensures below { RowsBelow 8380417 (length a.old) a.new }
{
    let mut full = true;
    for (n, row) in a.iter_mut().enumerate() {
        full &= rej_ntt_poly::<H>(rho, &[(n % p.l) as u8, (n / p.l) as u8], row);
    }
    full
}

// ExpandS: small polynomials number `first` and on: whether every draw was full. eta is a number with a clause, as in RejBoundedPoly.
pub fn expand_s<H: Hash>(eta: usize, rho: &[u8], first: usize, s: &mut [[u32; 256]]) -> bool
    requires eta { (eta ≡ 2) ⊎ (eta ≡ 4) }
    requires few { first + length s.old ≤ 256 }
    ensures drawn { result ≡ all_full (tables (length s.old) (λ i. expand_s H.Hash.hashes eta rho.now (first + i))) }
    ensures value { s.new ≡ tables (length s.old) (λ i. padded (expand_s H.Hash.hashes eta rho.now (first + i))) }
    ensures below { RowsBelow 8380417 (length s.old) s.new }
{
    let mut full = true;
    for i in 0..s.len() {
        full &= rej_bounded_poly::<H>(eta, rho, &((first + i) as u16).to_le_bytes(), &mut s[i]);
    }
    full
}

// ExpandMask: the masks number `kappa` and on.
pub fn expand_masks<H: Hash>(p: DsaSet, rho: &[u8], kappa: u16, y: &mut [[u32; 256]])
    requires few { kappa + length y.old < 65536 }
    ensures value { y.new ≡ tables (length y.old) (λ i. expand_mask H.Hash.hashes (dsa_numbers p) rho.now (kappa + i)) }
    ensures below { RowsBelow 8380417 (length y.old) y.new }
{
    for i in 0..y.len() {
        expand_mask::<H>(p, rho, kappa + i as u16, &mut y[i]);
    }
}
