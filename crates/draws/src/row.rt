// A row of numbers that travels with its length.
ghost use Rattle.std.specs.Prelude.{◌≡◌, ◌<◌, ◌≤◌, [], ◌++◌, length, take};
ghost use Rattle.draws.specs.Kept.{one_if};

use std::marker::Model;
use words::Word;

// Room for N numbers, of which the first `have` are there.
#[derive(Drop)]
pub struct Row<W, const N: usize> {
    numbers: [W; N],
    have: usize,
}

// Clauses see the numbers that are there.
impl<W, const N: usize> Model for Row<W, N> {
    ghost use Rattle.std.specs.Prelude.{◌≤◌, List, take};

    ghost Value = { List W };

    ghost view = { λ r. take r.have r.numbers };

    ghost invariant = { λ r. r.have ≤ N };
}

impl<W: Word, const N: usize> Row<W, N> {
    pub fn new() -> Self
        ensures { result ≡ [] }
    {
        Row {
            numbers: [W::narrow(0); N],
            have: 0,
        }
    }

    // Writes a number behind the others, and counts it if it fits: no branch depends on it. The count is read once, which keeps it in a
    // register where several are offered.
    pub fn offer(&mut self, x: W, fits: bool)
        requires { length self.old < N }
        ensures { self.new ≡ self.old ++ one_if fits x }
    {
        let have = self.have;
        self.numbers[have] = x;
        self.have = have + usize::from(fits);
    }

    pub fn as_slice(&self) -> &[W]
        ensures { result.now ≡ self.now }
    {
        &self.numbers[..self.have]
    }

    pub(crate) fn len(&self) -> usize
        ensures { result ≡ length self.now }
    {
        self.have
    }

    // Leaves the first n alone.
    pub(crate) fn truncate(&mut self, n: usize)
        requires { n ≤ length self.old }
        ensures { self.new ≡ take n self.old }
    {
        self.have = n;
    }
}
