// Eight numbers of D bits are D bytes. Numbers come in at the top of a word and bytes leave it at the bottom, and the other way round.
// D is from 1 to 24: a const parameter has no type of its own to hold that.
// Loops go by index, for the numbers may be secret: which places are read, and how often the inner loops go round, depends on D alone. `have` and `at` step by
// hand: how many bytes a number completes is now one more and now one less, which no range counts.
ghost use Rattle.std.specs.Prelude.{◌≡◌, ◌*◌, ◌<◌, ◌≤◌, length};
ghost use Rattle.standards.specs.Bytes.{pack, unpack};

use super::coefficients::{eight, set_eight};
use words::Word;

// The D bytes of eight numbers. At most D + 7 bits wait in the word at a time.
fn pack_eight<const D: usize>(x: &[u32; 8], out: &mut [u8])
    requires { (0 < D) × ((D ≤ 24) × (length out.old ≡ D)) }
    ensures { out.new ≡ pack D x.now }
{
    let mask = (1u64 << D) - 1;
    let mut bits: u64 = 0;
    let mut have: usize = 0;
    let mut at: usize = 0;
    for i in 0..8 {
        bits += (u64::from(x[i]) & mask) << have;
        have += D;
        while have >= 8 {
            out[at] = (bits & 0xff) as u8;
            bits >>= 8;
            have -= 8;
            at += 1;
        }
    }
}

// Eight numbers out of D bytes. At most D + 7 bits wait in the word at a time. Unrolled into its caller, since a call for every eight costs up to twice the time:
// where both words are unpacked at the larger widths, the compiler would leave it a call.
#[inline(always)]
fn unpack_eight<const D: usize>(bs: &[u8]) -> [u32; 8]
    requires { (0 < D) × ((D ≤ 24) × (length bs.now ≡ D)) }
    ensures { result ≡ unpack D 8 bs.now }
{
    let mask = (1u64 << D) - 1;
    let mut x = [0u32; 8];
    let mut bits: u64 = 0;
    let mut have: usize = 0;
    let mut at: usize = 0;
    for i in 0..8 {
        while have < D {
            bits += u64::from(bs[at]) << have;
            have += 8;
            at += 1;
        }
        x[i] = (bits & mask) as u32;
        bits >>= D;
        have -= D;
    }
    x
}

// All 256 numbers as 32 D bytes.
pub fn pack_eights<const D: usize, W: Word>(f: &[W; 256], out: &mut [u8])
    requires { (0 < D) × ((D ≤ 24) × (length out.old ≡ 32 * D)) }
    ensures { out.new ≡ pack D (W.numbers f.now) }
{
    for g in 0..32 {
        let x = eight(f, g);
        pack_eight::<D>(&x, &mut out[D * g..D * g + D]);
    }
}

// All 256 numbers out of 32 D bytes.
pub fn unpack_eights<const D: usize, W: Word>(bs: &[u8], f: &mut [W; 256])
    requires { (0 < D) × ((D ≤ 24) × ((D ≤ W.bits) × (length bs.now ≡ 32 * D))) }
    ensures { W.numbers f.new ≡ unpack D 256 bs.now }
{
    for g in 0..32 {
        let x = unpack_eight::<D>(&bs[D * g..D * g + D]);
        set_eight(f, g, &x);
    }
}
