// A stream that is read ahead, and byte by byte.
ghost use Rattle.std.specs.Prelude.{◌≡◌, ◌≤◌};

use hash::Reader;

// Bytes that are looked at for one place.
const TRIES: usize = 1024;

// Of the block that was read, the bytes from `pos` on are still to come. With the eight bytes of signs before them, the first 128 are a
// block of SHAKE256.
#[derive(Drop)]
pub struct ReadAhead<R> {
    reader: R,
    block: [u8; 128],
    pos: usize,
    ghost within: { pos ≤ 128 },
}

impl<R: Reader> ReadAhead<R> {
    ghost use Rattle.std.specs.Prelude.{◌≡◌, ◌+◌, ◌<◌};
    ghost use Rattle.standards.specs.MlDsaParts.{first_at_most};
    ghost use Rattle.hash.specs.Streams.{later};
    ghost use Rattle.mldsa_sampling.specs.Ahead.{to_come};

    pub fn new(reader: R) -> Self
        ensures { to_come R.rest result ≡ R.rest reader }
    {
        ReadAhead {
            reader,
            block: [0; 128],
            pos: 128,
        }
    }

    // Reads the next block, where all of this one is gone.
    fn refill(&mut self)
        ensures same { to_come R.rest self.new ≡ to_come R.rest self.old }
        ensures some { self.new.pos < 128 }
    {
        if self.pos < 128 {
            return;
        }
        self.reader.squeeze(&mut self.block);
        self.pos = 0;
    }

    fn next_byte(&mut self) -> u8
        ensures byte { result ≡ to_come R.rest self.old 0 }
        ensures onward { to_come R.rest self.new ≡ later 1 (to_come R.rest self.old) }
    {
        self.refill();
        let b = self.block[self.pos];
        self.pos += 1;
        b
    }

    // The first byte that is at most i, or the one that comes after 1,024 that are not.
    pub fn draw_place(&mut self, i: usize) -> u8
        ensures byte { result ≡ to_come R.rest self.old (first_at_most 1024 0 i (to_come R.rest self.old)) }
        ensures onward { to_come R.rest self.new ≡ later (first_at_most 1024 0 i (to_come R.rest self.old) + 1) (to_come R.rest self.old) }
    {
        // The count bounds the loop. It has a name for the proof, which tells by it how many bytes were looked at.
        for _seen in 0..TRIES {
            let b = self.next_byte();
            if usize::from(b) <= i {
                return b;
            }
        }
        self.next_byte()
    }
}
