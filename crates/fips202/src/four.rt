// Four streams side by side: one permutation of four states gives a block of each.
// A message may be secret: loops and branches depend on lengths and on the place alone.
ghost use Rattle.std.specs.Prelude.{◌≡◌, ◌+◌, ◌<◌, ◌≤◌, [], length};
ghost use Rattle.standards.specs.Lists.{table};
ghost use Rattle.hash.specs.Streams.{later_four};

use crate::sponge::{Sponge, unpacked};
use keccak_lanes::states::{gathered, permute_states, state};

// Four sponges that give bytes: `place` bytes of the lanes of each have been read. The four states lie in `words` as `keccak_lanes` keeps them.
#[derive(Drop)]
pub struct FourSqueezer<const RATE: usize> {
    words: [u64; 100],
    place: usize,
    ghost inside: { (place ≤ RATE) × (0 < RATE) × (RATE ≤ 200) },
}

impl<const RATE: usize> FourSqueezer<RATE> {
    ghost use Rattle.fips202.specs.States.{stream, rest_of, rests};

    // Ends four messages. No byte is left to read before the next permutation, the first that the four share.
    pub fn after(
        a: Sponge<RATE>,
        b: Sponge<RATE>,
        c: Sponge<RATE>,
        d: Sponge<RATE>,
        suffix: u8,
    ) -> Self
        requires { suffix < 128 }
        ensures first { rest_of 0 result ≡ stream suffix a.entry [] }
        ensures second { rest_of 1 result ≡ stream suffix b.entry [] }
        ensures third { rest_of 2 result ≡ stream suffix c.entry [] }
        ensures fourth { rest_of 3 result ≡ stream suffix d.entry [] }
    {
        FourSqueezer {
            words: gathered(
                &a.padded(suffix),
                &b.padded(suffix),
                &c.padded(suffix),
                &d.padded(suffix),
            ),
            place: RATE,
        }
    }

    // Goes on to the next blocks where these have been read.
    fn turn(&mut self)
        ensures inside { self.new.place < RATE }
        ensures same { rests self.new ≡ rests self.old }
    {
        if self.place == RATE {
            permute_states(&mut self.words);
            self.place = 0;
        }
    }

    // Fills `out` with bytes of block l, from the place on.
    fn read(&self, l: usize, out: &mut [u8])
        requires which { l < 4 }
        requires within { self.now.place + length out.old ≤ RATE }
        ensures { out.new ≡ table (length out.old) (rest_of l self.now) }
    {
        let bytes = unpacked(&state(&self.words, l));
        out.copy_from_slice(&bytes[self.place..self.place + out.len()]);
    }

    // Fills four parts that end within the block.
    fn squeeze_within(&mut self, a: &mut [u8], b: &mut [u8], c: &mut [u8], d: &mut [u8])
        requires within { self.old.place + length a.old ≤ RATE }
        requires b_len { length b.old ≡ length a.old }
        requires c_len { length c.old ≡ length a.old }
        requires d_len { length d.old ≡ length a.old }
        ensures first { a.new ≡ table (length a.old) (rest_of 0 self.old) }
        ensures second { b.new ≡ table (length a.old) (rest_of 1 self.old) }
        ensures third { c.new ≡ table (length a.old) (rest_of 2 self.old) }
        ensures fourth { d.new ≡ table (length a.old) (rest_of 3 self.old) }
        ensures onward { rests self.new ≡ later_four (length a.old) (rests self.old) }
    {
        self.read(0, a);
        self.read(1, b);
        self.read(2, c);
        self.read(3, d);
        self.place += a.len();
    }

    // Fills four parts of one length, a block at a time.
    pub fn squeeze(&mut self, a: &mut [u8], b: &mut [u8], c: &mut [u8], d: &mut [u8])
        requires b_len { length b.old ≡ length a.old }
        requires c_len { length c.old ≡ length a.old }
        requires d_len { length d.old ≡ length a.old }
        ensures first { a.new ≡ table (length a.old) (rest_of 0 self.old) }
        ensures second { b.new ≡ table (length a.old) (rest_of 1 self.old) }
        ensures third { c.new ≡ table (length a.old) (rest_of 2 self.old) }
        ensures fourth { d.new ≡ table (length a.old) (rest_of 3 self.old) }
        ensures onward { rests self.new ≡ later_four (length a.old) (rests self.old) }
    {
        let len = a.len();
        let mut done = 0;
        while done < len {
            self.turn();
            let end = done + (RATE - self.place).min(len - done);
            self.squeeze_within(
                &mut a[done..end],
                &mut b[done..end],
                &mut c[done..end],
                &mut d[done..end],
            );
            done = end;
        }
    }
}
