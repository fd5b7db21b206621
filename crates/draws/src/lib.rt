// Drawing numbers by rejection out of a stream, for any kind of candidates and any stream: whole blocks are read, and a number is kept
// without a branch.
// Noise is drawn here too, so loops go by index: branches and places depend on how many numbers were kept, which is what the standards'
// rejection shows, and on nothing else.
// Bounds of a row's numbers stand in clauses: rows are plain, since one that is lent to be filled may hold anything before.
#![tactic(auto)]

ghost use Rattle.std.specs.Prelude.{◌≡◌, ◌+◌, ◌*◌, ◌<◌, ◌≤◌, ◌++◌, length, MatchOption, T};
ghost use Rattle.standards.specs.Lists.{table, at, all_below};
ghost use Rattle.hash.specs.Streams.{later};
ghost use Rattle.draws.specs.Kept.{kept, drawn};

use crate::candidates::Candidates;
use crate::row::Row;
use hash::Reader;

pub mod candidates;
pub mod row;

// Offers the candidates of whole groups, of which the block has as many as `groups` says: out of the block's length it would be a division, which the
// invariant would have to undo.
fn draw_block<const ROOM: usize, C: Candidates<ROOM>>(
    kind: C,
    block: &[u8],
    groups: usize,
    row: &mut Row<C::Number, ROOM>,
)
    requires bytes { length block.now ≡ C.BYTES * groups }
    requires room { length row.old + C.EACH * groups ≤ ROOM }
    ensures { C.Number.numbers row.new ≡ C.Number.numbers row.old ++ kept (C.fits kind) (C.number kind) (C.candidate (at block.now)) (C.EACH * groups) }
{
    for g in 0..groups {
        kind.offer(&block[C::BYTES * g..C::BYTES * (g + 1)], row);
    }
}

// The same out of the next bytes of a stream. The room is for the longest block, since memory is fixed.
fn draw_next<const ROOM: usize, C: Candidates<ROOM>, R: Reader>(
    kind: C,
    reader: &mut R,
    groups: usize,
    row: &mut Row<C::Number, ROOM>,
)
    requires groups { groups ≤ C.BLOCK }
    requires room { length row.old < 256 }
    ensures front { C.Number.numbers row.new ≡ C.Number.numbers row.old ++ kept (C.fits kind) (C.number kind) (C.candidate (at (table (C.BYTES * groups) (R.rest reader.old)))) (C.EACH * groups) }
    ensures onward { R.rest reader.new ≡ later (C.BYTES * groups) (R.rest reader.old) }
{
    let mut block = [0u8; 168];
    let part = &mut block[0..C::BYTES * groups];
    reader.squeeze(part);
    draw_block(kind, part, groups, row);
}

// Draws till 256 numbers are there: out of how many groups, or `None` if all that are looked at hold fewer. The loop ends where the numbers
// are there, which no range counts, and by a rule of the project it is left by its label.
pub fn draw<const ROOM: usize, C: Candidates<ROOM>, R: Reader>(
    kind: C,
    reader: &mut R,
    row: &mut Row<C::Number, ROOM>,
) -> Option<usize>
    ensures drawn { C.Number.numbers row.new ≡ drawn (C.fits kind) (C.number kind) (C.candidate (R.rest reader.old)) (C.EACH * C.GROUPS) }
    ensures below { T (all_below C.bound (C.Number.numbers row.new)) }
    ensures full { MatchOption result (length row.new < 256) (λ _. length row.new ≡ 256) }
    ensures onward { MatchOption result (R.rest reader.new ≡ later (C.BYTES * C.GROUPS) (R.rest reader.old)) (λ seen. R.rest reader.new ≡ later (C.BYTES * seen) (R.rest reader.old)) }
{
    row.truncate(0);
    let mut seen: usize = 0;
    'draw: loop {
        if row.len() >= 256 {
            break 'draw;
        }
        if seen >= C::GROUPS {
            return None;
        }
        let groups = (C::GROUPS - seen).min(C::BLOCK);
        draw_next(kind, reader, groups, row);
        seen += groups;
    }
    row.truncate(256);
    Some(seen)
}
