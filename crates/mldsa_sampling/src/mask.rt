// ExpandMask: a row of numbers from -gamma1 + 1 to gamma1, modulo q.
// Bounds of a row's numbers stand in clauses: rows are plain, since one that is lent to be filled may hold anything before.
ghost use Rattle.std.specs.Prelude.{◌≡◌, T};
ghost use Rattle.standards.specs.Lists.{all_below};
ghost use Rattle.standards.specs.MlDsaParts.{expand_mask};
ghost use Rattle.sets.specs.Sets.{dsa_numbers};

use hash::Hash;
use mldsa_parts::encoding::bit_unpack;
use mldsa_parts::interval::Interval;
use sets::types::DsaSet;

// Polynomial n of the mask out of the seed rho; the counter's low byte comes first. 640 bytes are 256 numbers of 20 bits:
// a room for the widest set, since memory is fixed.
pub fn expand_mask<H: Hash>(p: DsaSet, rho: &[u8], n: u16, f: &mut [u32; 256])
    ensures value { f.new ≡ expand_mask H.Hash.hashes (dsa_numbers p) rho.now n }
    ensures below { T (all_below 8380417 f.new) }
{
    let interval = Interval::of_z(p);
    let counter = n.to_le_bytes();
    let mut bytes = [0u8; 640];
    let part = &mut bytes[0..32 * interval.width.bits];
    H::shake256_into(rho, &counter, part);
    bit_unpack(interval, part, f);
}
