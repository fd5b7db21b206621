// Compress and Decompress, in whole numbers. Division is by a constant, which the compiler turns into a product and a shift.
// Loops go by index: the numbers may be secret, and this form lowers to plain code that reads the same places whatever they are.
// Bounds of a row's numbers stand in clauses: rows are plain, since one that is lent to be filled may hold anything before.
ghost use Rattle.std.specs.Prelude.{◌≡◌, ◌^◌, ◌<◌, ◌≤◌, T};
ghost use Rattle.standards.specs.Lists.{all_below};
ghost use Rattle.standards.specs.MlKemParts.{compress, decompress, compress_p, decompress_p};

use crate::Q;

// 2^(d + 1) x + q is below 2^25. The bound on d is a clause and no type: numbers are compressed to any d bits, not only to widths that are packed.
#[tactic(auto, using(crate::proofs::Numbers::compress_steps))]
fn compress_number(d: usize, x: u16) -> u16
    requires { (d ≤ 12) × (x < 3329) }
    ensures value { result ≡ compress d x }
    ensures below { result < 2 ^ d }
{
    let t = ((u32::from(x) << (d + 1)) + u32::from(Q)) / (2 * u32::from(Q));
    (t & ((1u32 << d) - 1)) as u16
}

// 2 q y + 2^d is below 2^25.
#[tactic(auto, using(crate::proofs::Numbers::decompress_steps))]
fn decompress_number(d: usize, y: u16) -> u16
    requires { (d ≤ 12) × (y < 2 ^ d) }
    ensures value { result ≡ decompress d y }
    ensures below { result < 3329 }
{
    ((2 * u32::from(Q) * u32::from(y) + (1u32 << d)) >> (d + 1)) as u16
}

// Compress, number by number.
#[tactic(auto, using(algebra::proofs::Tables::at_below))]
pub fn compress(d: usize, f: &mut [u16; 256])
    requires { (d ≤ 12) × (T (all_below 3329 f.old)) }
    ensures value { f.new ≡ compress_p d f.old }
    ensures below { T (all_below (2 ^ d) f.new) }
{
    for i in 0..256 {
        f[i] = compress_number(d, f[i]);
    }
}

// Decompress, number by number.
#[tactic(auto, using(algebra::proofs::Tables::at_below))]
pub fn decompress(d: usize, f: &mut [u16; 256])
    requires { (d ≤ 12) × (T (all_below (2 ^ d) f.old)) }
    ensures value { f.new ≡ decompress_p d f.old }
    ensures below { T (all_below 3329 f.new) }
{
    for i in 0..256 {
        f[i] = decompress_number(d, f[i]);
    }
}

// Every number at each width of the sets, beside the nearest whole number found by quotient and remainder.
#[cfg(test)]
mod tests {
    use super::compress_number;
    use std::test::Fail;

    // 2^d x / 3329, one more where the remainder is over a half, modulo 2^d. No remainder is a half, since 3329 is odd.
    fn nearest(d: usize, x: u16) -> u16
        requires { d ≤ 12 }
    {
        let n = u32::from(x) << d;
        let up = u32::from(n % 3329 > 1664);
        ((n / 3329 + up) & ((1u32 << d) - 1)) as u16
    }

    #[test]
    fn every_number(rt: HostRuntime) -> Result<(), Fail> {
        for d in [1, 4, 5, 10, 11] {
            for x in 0..3329 {
                assert_eq!(rt; compress_number(d, x), nearest(d, x));
            }
        }
        Ok(())
    }
}
