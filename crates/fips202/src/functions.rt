// The four functions: SHA3 adds the bits 01 to a message and SHAKE the bits 1111, each before the padding's first bit.
ghost use Rattle.std.specs.Prelude.{◌≡◌, ℕ, ◌%◌, ◌<◌, ◌≤◌, [], length};
ghost use Rattle.standards.specs.Lists.{table};
ghost use Rattle.standards.specs.Hashes.{Hashes};
ghost use Rattle.standards.specs.Fips202.{sponge, fips202};
ghost use Rattle.standards.specs.Promises.{HashesAreFair};
ghost use Rattle.standards.specs.Cases.{DigestCases};
ghost use Rattle.fips202_laws.proofs.Fairness.{hashes_are_fair};
ghost use Rattle.fips202.specs.States as states;

use crate::four::FourSqueezer;
use crate::sponge::{Sponge, Squeezer};
use hash::{Absorb, Digest, FourReaders, Hash, Reader, Xof};

const SHA3: u8 = 0x06;

const SHAKE: u8 = 0x1f;

impl<const RATE: usize> Reader for Squeezer<RATE> {
    ghost rest = { states.rest };

    fn squeeze(&mut self, out: &mut [u8]) {
        self.squeeze(out);
    }
}

impl<const RATE: usize> FourReaders for FourSqueezer<RATE> {
    ghost rests = { states.rests };

    fn squeeze(&mut self, a: &mut [u8], b: &mut [u8], c: &mut [u8], d: &mut [u8]) {
        self.squeeze(a, b, c, d);
    }
}

// SHAKE128 or SHAKE256 while it takes its message.
#[derive(Drop)]
pub struct Shake<const RATE: usize> {
    sponge: Sponge<RATE>,
}

pub type Shake128 = Shake<168>;

pub type Shake256 = Shake<136>;

impl<const RATE: usize> Absorb for Shake<RATE> {
    ghost stream = { λ s. states.stream 31 s.sponge };

    fn absorb(&mut self, part: &[u8]) {
        self.sponge.absorb(part);
    }
}

impl<const RATE: usize> Xof for Shake<RATE> {
    type Output = Squeezer<RATE>;

    fn finish(self) -> Squeezer<RATE> {
        let Shake { sponge } = self;
        sponge.finish(SHAKE)
    }
}

// SHA3-256 or SHA3-512 while it takes its message. It is a type beside `Shake`, since one gives N bytes and the other a stream: the traits keep
// them apart, and the suffix is all that they have in common.
#[derive(Drop)]
pub struct Sha3<const RATE: usize, const N: usize> {
    sponge: Sponge<RATE>,
}

pub type Sha3_256 = Sha3<136, 32>;

pub type Sha3_512 = Sha3<72, 64>;

impl<const RATE: usize, const N: usize> Absorb for Sha3<RATE, N> {
    ghost stream = { λ s. states.stream 6 s.sponge };

    fn absorb(&mut self, part: &[u8]) {
        self.sponge.absorb(part);
    }
}

impl<const RATE: usize, const N: usize> Digest<N> for Sha3<RATE, N> {
    fn finish(self) -> [u8; N] {
        let Sha3 { sponge } = self;
        let mut out = [0; N];
        sponge.finish(SHA3).squeeze(&mut out);
        out
    }
}

pub struct Fips202;

// The standard's functions by their names, so they come in pairs, of a line or four each.
impl Hash for Fips202 {
    type Reader128 = Squeezer<168>;

    type Shake128 = Shake128;

    type Reader256 = Squeezer<136>;

    type Shake256 = Shake256;

    type Sha3_256 = Sha3_256;

    type Sha3_512 = Sha3_512;

    type FourShake128 = FourSqueezer<168>;

    type FourShake256 = FourSqueezer<136>;

    ghost hashes = { fips202 };

    ghost fair = { hashes_are_fair };

    fn open_shake128() -> Self::Shake128 {
        Shake {
            sponge: Sponge::new(),
        }
    }

    fn open_shake256() -> Self::Shake256 {
        Shake {
            sponge: Sponge::new(),
        }
    }

    fn open_sha3_256() -> Self::Sha3_256 {
        Sha3 {
            sponge: Sponge::new(),
        }
    }

    fn open_sha3_512() -> Self::Sha3_512 {
        Sha3 {
            sponge: Sponge::new(),
        }
    }

    fn four_shake128(a: &[u8], b: &[u8], c: &[u8], d: &[u8]) -> Self::FourShake128 {
        FourSqueezer::after(soaked(a), soaked(b), soaked(c), soaked(d), SHAKE)
    }

    fn four_shake256(a: &[u8], b: &[u8], c: &[u8], d: &[u8]) -> Self::FourShake256 {
        FourSqueezer::after(soaked(a), soaked(b), soaked(c), soaked(d), SHAKE)
    }
}

// A sponge that has taken one message.
fn soaked<const RATE: usize>(m: &[u8]) -> Sponge<RATE>
    requires rate_nonzero { 0 < RATE }
    requires value { RATE % 8 ≡ 0 }
    requires bound { RATE ≤ 200 }
    ensures { states.stream 31 result [] ≡ sponge RATE 31 m.now }
{
    let mut sponge = Sponge::new();
    sponge.absorb(m);
    sponge
}

// FIPS 202's functions give bytes, and of the right length.
#[tactic(auto, using(fips202_laws::proofs::Fairness::hashes_are_fair))]
pub fn hashes_are_fair()
    ensures { HashesAreFair }
{}

// The first bytes of two digests.
#[tactic(auto, using(fips202_laws::proofs::Digests::digest_cases))]
pub fn digest_cases()
    ensures { DigestCases }
{}
