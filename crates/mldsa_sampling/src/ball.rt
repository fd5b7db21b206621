// SampleInBall: a challenge with tau numbers 1 or -1, the others noughts.
// The loop goes by the standard's index. Its places are the challenge's, which is public in a signature.
// Bounds of a row's numbers stand in clauses: rows are plain, since one that is lent to be filled may hold anything before.
ghost use Rattle.std.specs.Prelude.{◌≡◌, T};
ghost use Rattle.standards.specs.Lists.{all_below};
ghost use Rattle.standards.specs.MlDsaParts.{sample_in_ball};
ghost use Rattle.sets.specs.Sets.{dsa_numbers};

use super::read_ahead::ReadAhead;
use hash::{Hash, Reader};
use mldsa_parts::Q;
use sets::types::DsaSet;

// The challenge of the bytes c.
pub fn sample_in_ball<H: Hash>(p: DsaSet, c: &[u8], f: &mut [u32; 256])
    ensures value { f.new ≡ sample_in_ball H.Hash.hashes (dsa_numbers p) c.now }
    ensures below { T (all_below 8380417 f.new) }
{
    let mut reader = H::shake256(c, &[]);
    let mut signs = [0u8; 8];
    reader.squeeze(&mut signs);
    let mut places = ReadAhead::new(reader);
    f.fill(0);
    for t in 0..p.tau {
        let i = 256 - p.tau + t;
        let j = usize::from(places.draw_place(i));
        let sign = (signs[t / 8] >> (t % 8)) % 2;
        f[i] = f[j];
        f[j] = 1 + u32::from(sign) * (Q - 2);
    }
}
