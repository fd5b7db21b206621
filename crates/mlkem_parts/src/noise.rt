// SamplePolyCBD: a number from -eta to eta is the sum of eta bits less the sum of the eta bits after them.
// Loops go by index: noise is secret, and this form lowers to plain code that reads the same places whatever it is.
// Bounds of a row's numbers stand in clauses: rows are plain, since one that is lent to be filled may hold anything before.
// ETA is 2 or 3: a const parameter has no type that could hold that.
ghost use Rattle.std.specs.Prelude.{◌≡◌, ◌*◌, ◌<◌, ◌≤◌, T, length};
ghost use Rattle.standards.specs.Lists.{all_below};
ghost use Rattle.standards.specs.MlKemParts.{sample_poly_cbd};
ghost use Rattle.mlkem_parts.specs.Bits.{bits_less};

use crate::Q;
use packing::{Width, unpack};
use sets::types::Eta;
use std::marker::PhantomData;

// The number of 2 ETA bits v. Both sums are at most ETA.
#[tactic(auto, using(crate::proofs::SmallNumbers::sums_whole))]
fn cbd_number<const ETA: usize>(v: u16) -> u16
    requires { ETA ≤ 3 }
    ensures { result ≡ bits_less ETA v }
{
    let mut plus: u16 = 0;
    let mut minus: u16 = 0;
    for j in 0..ETA {
        plus += (v >> j) & 1;
        minus += (v >> (ETA + j)) & 1;
    }
    (plus + (Q - minus)) % Q
}

fn cbd_row<const ETA: usize>(bs: &[u8], f: &mut [u16; 256])
    requires { (2 ≤ ETA) × ((ETA ≤ 3) × (length bs.now ≡ 64 * ETA)) }
    ensures value { f.new ≡ sample_poly_cbd ETA bs.now }
    ensures below { T (all_below 3329 f.new) }
{
    let d = Width {
        bits: 2 * ETA,
        of: PhantomData,
    };
    unpack(d, bs, f);
    for i in 0..256 {
        f[i] = cbd_number::<ETA>(f[i]);
    }
}

// SamplePolyCBD of 64 eta bytes. eta is public: the choice picks a constant for the compiler.
pub fn sample_poly_cbd(eta: Eta, bs: &[u8], f: &mut [u16; 256])
    requires { length bs.now ≡ 64 * eta.value }
    ensures value { f.new ≡ sample_poly_cbd eta.value bs.now }
    ensures below { T (all_below 3329 f.new) }
{
    if eta.value == 2 {
        cbd_row::<2>(bs, f)
    } else {
        cbd_row::<3>(bs, f)
    }
}
