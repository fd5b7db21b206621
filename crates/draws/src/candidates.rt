// Kinds of candidates: how the bytes of a stream hold them, and which of them a draw keeps.
ghost use Rattle.std.specs.Prelude.{◌≡◌, ℕ, ◌+◌, ◌*◌, ◌<◌, ◌≤◌, Bool, true, ◌++◌, length};
ghost use Rattle.standards.specs.Lists.{table, at};
ghost use Rattle.hash.specs.Streams.{later};
ghost use Rattle.draws.specs.Kept.{kept};

use crate::row::Row;
use words::Word;

// The bytes of a stream hold candidates in groups. ROOM is for a whole block of them behind 255 numbers.
pub trait Candidates<const ROOM: usize>: Copy {
    type Number: Word;

    // How many bytes a group has, and how many candidates are in it.
    ghost BYTES: { ℕ };

    const BYTES: usize;

    ghost EACH: { ℕ };

    const EACH: usize;

    // How many groups are looked at, and how many of them are in a block of the stream.
    ghost GROUPS: { ℕ };

    const GROUPS: usize;

    ghost BLOCK: { ℕ };

    const BLOCK: usize;

    // the k-th candidate of a stream
    ghost candidate: { (ℕ → ℕ) → ℕ → ℕ };

    // whether a candidate is kept, and as which number
    ghost fits: { Self → ℕ → Bool };

    ghost number: { Self → ℕ → ℕ };

    // what the numbers that are kept are below
    ghost bound: { ℕ };

    // Offers the candidates of a group to the row, without a branch.
    fn offer(self, group: &[u8], row: &mut Row<Self::Number, ROOM>)
        requires bytes { length group.now ≡ BYTES }
        requires room { length row.old + EACH ≤ ROOM }
        ensures { Self.Number.numbers row.new ≡ Self.Number.numbers row.old ++ kept (fits self) (number self) (candidate (at group.now)) EACH };

    // The candidates of a block are those of the stream that it was read from.
    ghost of_block: { (s : ℕ → ℕ) (m n k : ℕ) → k < EACH * n → candidate s (EACH * m + k) ≡ candidate (at (table (BYTES * n) (later (BYTES * m) s))) k };

    // The numbers that are kept are below the bound.
    ghost small: { (c : Self) (x : ℕ) → fits c x ≡ true → number c x < bound };

    // A block has some group, and at most the 168 bytes of one of SHAKE128; a row has room for its candidates.
    ghost block_some: { 0 < BLOCK };

    ghost block_fits: { BYTES * BLOCK ≤ 168 };

    ghost room_fits: { 256 + EACH * BLOCK ≤ ROOM };
}
