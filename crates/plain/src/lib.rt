// Plain hashes, for tests: they add up the message's bytes and count on from there.
#![tactic(auto)]

ghost use Rattle.std.specs.Prelude.{◌≡◌, ℕ, ◌+◌, ◌*◌, ◌%◌, length, sum};
ghost use Rattle.standards.specs.Lists.{table};
ghost use Rattle.standards.specs.Hashes.{Hashes};
ghost use Rattle.plain.specs.Counting.{counted, step_of, count_from, plain, StuckAt255};
ghost use Rattle.plain.specs.Fairness.{plain_fair};

use hash::in_turn::InTurn;
use hash::{Absorb, Digest, FourReaders, Hash, Reader, Xof};

// The total and the bytes of the part, modulo 256.
fn added(total: u8, part: &[u8]) -> u8
    ensures { result ≡ (total + sum part.now) % 256 }
{
    part.iter().fold(total, |t, b| t.wrapping_add(*b))
}

// A total that is counted on from, unless it is 255.
#[derive(Drop)]
pub struct Count {
    next: u8,
    step: u8,
}

fn count_from(total: u8) -> Count
    ensures next { result.next ≡ total }
    ensures step { result.step ≡ step_of total }
{
    let step = if total == 255 { 0 } else { 1 };
    Count { next: total, step }
}

impl Reader for Count {
    ghost rest = { λ s. counted s.next s.step };

    #[tactic(auto, using(algebra::proofs::Tables::is_table))]
    fn squeeze(&mut self, out: &mut [u8]) {
        for x in out.iter_mut() {
            *x = self.next;
            self.next = self.next.wrapping_add(self.step);
        }
    }
}

// The sum of what has been absorbed.
#[derive(Drop)]
pub struct Sum {
    total: u8,
}

impl Absorb for Sum {
    ghost stream = { λ s m. count_from (s.total + sum m) };

    fn absorb(&mut self, part: &[u8]) {
        self.total = added(self.total, part);
    }
}

impl Xof for Sum {
    type Output = Count;

    fn finish(self) -> Count {
        count_from(self.total)
    }
}

impl<const N: usize> Digest<N> for Sum {
    fn finish(self) -> [u8; N] {
        let mut out = [0; N];
        count_from(self.total).squeeze(&mut out);
        out
    }
}

pub struct Plain;

// Each of the hashes' functions by its name, a line each: they are one sum.
impl Hash for Plain {
    type Reader128 = Count;

    type Shake128 = Sum;

    type Reader256 = Count;

    type Shake256 = Sum;

    type Sha3_256 = Sum;

    type Sha3_512 = Sum;

    type FourShake128 = InTurn<Count>;

    type FourShake256 = InTurn<Count>;

    ghost hashes = { plain };

    ghost fair = { plain_fair };

    fn open_shake128() -> Sum {
        Sum { total: 0 }
    }

    fn open_shake256() -> Sum {
        Sum { total: 0 }
    }

    fn open_sha3_256() -> Sum {
        Sum { total: 0 }
    }

    fn open_sha3_512() -> Sum {
        Sum { total: 0 }
    }

    fn four_shake128(a: &[u8], b: &[u8], c: &[u8], d: &[u8]) -> InTurn<Count> {
        four(a, b, c, d)
    }

    fn four_shake256(a: &[u8], b: &[u8], c: &[u8], d: &[u8]) -> InTurn<Count> {
        four(a, b, c, d)
    }
}

fn four(a: &[u8], b: &[u8], c: &[u8], d: &[u8]) -> InTurn<Count>
    ensures first { counted result.first.next result.first.step ≡ count_from (sum a.now) }
    ensures second { counted result.second.next result.second.step ≡ count_from (sum b.now) }
    ensures third { counted result.third.next result.third.step ≡ count_from (sum c.now) }
    ensures fourth { counted result.fourth.next result.fourth.step ≡ count_from (sum d.now) }
{
    InTurn {
        first: count_from(added(0, a)),
        second: count_from(added(0, b)),
        third: count_from(added(0, c)),
        fourth: count_from(added(0, d)),
    }
}

// A draw that rejects 255 can be made to fail: any seed whose bytes add up to 255 does it.
pub fn stuck_at_255()
    ensures { StuckAt255 }
{}
