// The sponge: lanes that take in a message and give bytes, RATE bytes a block.
// A message may be secret: loops go by index or by what is left of a slice, and their branches depend on lengths and on the place alone.
ghost use Rattle.std.specs.Prelude.{◌≡◌, ◌+◌, ◌*◌, ◌%◌, ◌<◌, ◌≤◌, [], length, take};
ghost use Rattle.standards.specs.Lists.{table};
ghost use Rattle.standards.specs.Fips202.{lane_of, state_byte};
ghost use Rattle.hash.specs.Streams.{later};
ghost use Rattle.fips202_laws.specs.Sponges.{read_from, mixed_byte, mixed_lanes};

use keccak::permute;

// Lane i of some bytes, the lowest byte first.
fn lane_at(bytes: &[u8], i: usize) -> u64
    requires { 8 * i + 8 ≤ length bytes.now }
    ensures { result ≡ lane_of bytes.now i }
{
    u64::from_le_bytes(*bytes[8 * i..].first_chunk().unwrap())
}

// Puts whole lanes in, from lane `first` on.
#[tactic(auto, using(algebra::proofs::Tables::is_table))]
fn mix_lanes(lanes: &mut [u64; 25], first: usize, part: &[u8])
    requires part_len { length part.now % 8 ≡ 0 }
    requires part_bound { 8 * first + length part.now ≤ 200 }
    ensures { lanes.new ≡ mixed_lanes lanes.old first part.now }
{
    for i in 0..part.len() / 8 {
        lanes[first + i] ^= lane_at(part, i);
    }
}

// Puts one byte in.
#[tactic(auto, using(fips202_laws::proofs::Lanes::byte_moved))]
fn mix_byte(lanes: &mut [u64; 25], place: usize, b: u8)
    requires { place < 200 }
    ensures { lanes.new ≡ mixed_byte lanes.old place b }
{
    lanes[place / 8] ^= u64::from(b) << (8 * (place % 8));
}

// The bytes of the lanes, the lowest of each first.
#[tactic(auto, using(algebra::proofs::Tables::is_table))]
pub(crate) fn unpacked(lanes: &[u64; 25]) -> [u8; 200]
    ensures { result ≡ table 200 (state_byte lanes.now) }
{
    let mut bytes = [0; 200];
    for i in 0..25 {
        bytes[8 * i..8 * i + 8].copy_from_slice(&lanes[i].to_le_bytes());
    }
    bytes
}

// A sponge that takes in a message: `place` bytes of the block under way are in the lanes.
#[derive(Drop)]
pub struct Sponge<const RATE: usize> {
    lanes: [u64; 25],
    place: usize,
    ghost inside: { (place < RATE) × (RATE % 8 ≡ 0) × (RATE ≤ 200) },
}

impl<const RATE: usize> Sponge<RATE> {
    // These words name the struct, and its ghost field reads the imports at the file's head, so they are imported here.
    ghost use Rattle.fips202.specs.States.{IsEmpty, Takes, Counts, stream, rest};

    #[tactic(auto, unfolding(standards::specs::Lists::from))]
    pub fn new() -> Self
        requires rate_nonzero { 0 < RATE }
        requires value { RATE % 8 ≡ 0 }
        requires bound { RATE ≤ 200 }
        ensures { IsEmpty result }
    {
        Sponge {
            lanes: [0; 25],
            place: 0,
        }
    }

    // Counts n bytes more as put in, and permutes a block that is full.
    #[tactic(auto, using(fips202_laws::proofs::Absorbing::absorbs_full))]
    fn advance(&mut self, n: usize)
        requires { self.old.place + n ≤ RATE }
        ensures { Counts self.old n self.new }
    {
        let place = self.place + n;
        if place == RATE {
            permute(&mut self.lanes);
            self.place = 0;
        } else {
            self.place = place;
        }
    }

    // Takes in as much of the part as goes in at once: whole lanes up to the block's end, or else one byte.
    #[tactic(auto, using(fips202_laws::proofs::Absorbing::absorbs_byte))]
    fn absorb_some(&mut self, part: &[u8]) -> usize
        requires { 0 < length part.now }
        ensures some { 0 < result }
        ensures within { result ≤ length part.now }
        ensures absorbs { Takes self.old (take result part.now) self.new }
    {
        let left = part.len();
        if self.place % 8 == 0 && left >= 8 {
            let n = (RATE - self.place).min(left - left % 8);
            mix_lanes(&mut self.lanes, self.place / 8, &part[..n]);
            self.advance(n);
            n
        } else {
            mix_byte(&mut self.lanes, self.place, part[0]);
            self.advance(1);
            1
        }
    }

    // Takes in a part of any length.
    #[tactic(auto, using(fips202_laws::proofs::Absorbing::absorbs_rest))]
    pub fn absorb(&mut self, part: &[u8])
        ensures { Takes self.old part.now self.new }
    {
        let mut rest = part;
        while !rest.is_empty() {
            let n = self.absorb_some(rest);
            rest = &rest[n..];
        }
    }

    // The lanes with the end of the message in them: the suffix behind it, and the padding's last bit at the end of the block. What is read from the end
    // of this block on comes out of the permutation.
    pub(crate) fn padded(self, suffix: u8) -> [u64; 25]
        requires { suffix < 128 }
        ensures { read_from RATE result RATE ≡ stream suffix self.entry [] }
    {
        let Sponge { mut lanes, place } = self;
        mix_byte(&mut lanes, place, suffix);
        mix_byte(&mut lanes, RATE - 1, 128);
        lanes
    }

    // Ends the message. No byte is left to read before the next permutation.
    pub fn finish(self, suffix: u8) -> Squeezer<RATE>
        requires { suffix < 128 }
        ensures { rest result ≡ stream suffix self.entry [] }
    {
        Squeezer {
            lanes: self.padded(suffix),
            place: RATE,
        }
    }
}

// A sponge that gives bytes: `place` bytes of the lanes have been read.
#[derive(Drop)]
pub struct Squeezer<const RATE: usize> {
    lanes: [u64; 25],
    place: usize,
    ghost inside: { (place ≤ RATE) × (0 < RATE) × (RATE ≤ 200) },
}

impl<const RATE: usize> Squeezer<RATE> {
    ghost use Rattle.fips202.specs.States.{rest};

    // Goes on to the next block where this one has been read.
    fn turn(&mut self)
        ensures inside { self.new.place < RATE }
        ensures same { rest self.new ≡ rest self.old }
    {
        if self.place == RATE {
            permute(&mut self.lanes);
            self.place = 0;
        }
    }

    // Gives as many bytes as the block has left, if `out` has room for them.
    #[tactic(auto, using(fips202_laws::proofs::Reading::read_part))]
    fn squeeze_some(&mut self, out: &mut [u8]) -> usize
        requires { 0 < length out.old }
        ensures some { 0 < result }
        ensures within { result ≤ length out.old }
        ensures bytes { take result out.new ≡ table result (rest self.old) }
        ensures onward { rest self.new ≡ later result (rest self.old) }
    {
        self.turn();
        let n = (RATE - self.place).min(out.len());
        let bytes = unpacked(&self.lanes);
        out[..n].copy_from_slice(&bytes[self.place..self.place + n]);
        self.place += n;
        n
    }

    // Fills `out`. It counts, where `absorb` has a slice that shrinks: an invariant can't name what was written before such a slice.
    pub fn squeeze(&mut self, out: &mut [u8])
        ensures bytes { out.new ≡ table (length out.old) (rest self.old) }
        ensures onward { rest self.new ≡ later (length out.old) (rest self.old) }
    {
        let mut done = 0;
        while done < out.len() {
            done += self.squeeze_some(&mut out[done..]);
        }
    }
}
