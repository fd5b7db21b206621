// Drawing a row, and what that leaves: noughts in the row's empty places.
// Bounds of a row's numbers stand in clauses: rows are plain, since one that is lent to be filled may hold anything before.
ghost use Rattle.std.specs.Prelude.{◌≡◌, ◌*◌, ◌≤◌, T, length, ◌==◌};
ghost use Rattle.standards.specs.Lists.{table, at, all_below};
ghost use Rattle.draws.specs.Kept.{drawn};

use draws::candidates::Candidates;
use draws::draw;
use draws::row::Row;
use hash::Reader;

// The numbers that were drawn, and noughts behind them.
fn put_drawn(drawn: &[u32], f: &mut [u32; 256])
    requires { length drawn.now ≤ 256 }
    ensures row { f.new ≡ table 256 (at drawn.now) }
    ensures below { T (all_below 8380417 drawn.now) → T (all_below 8380417 f.new) }
{
    let have = drawn.len();
    f.fill(0);
    f[0..have].copy_from_slice(drawn);
}

// Draws a row out of a stream, for any kind of candidates below q: whether the draw was full. The row is stated either way, so the answer is a
// `bool`. ROOM has a bound so that the row fits in memory.
pub fn draw_row<const ROOM: usize, C: Candidates<ROOM, Number = u32>, R: Reader + Drop>(
    kind: C,
    mut reader: R,
    f: &mut [u32; 256],
) -> bool
    requires bound { C.bound ≡ 8380417 }
    requires room { ROOM ≤ 1024 }
    ensures full { result ≡ (length (drawn (C.fits kind) (C.number kind) (C.candidate (R.rest reader)) (C.EACH * C.GROUPS)) == 256) }
    ensures row { f.new ≡ table 256 (at (drawn (C.fits kind) (C.number kind) (C.candidate (R.rest reader)) (C.EACH * C.GROUPS))) }
    ensures below { T (all_below 8380417 f.new) }
{
    let mut row: Row<u32, ROOM> = Row::new();
    let full = draw(kind, &mut reader, &mut row).is_some();
    put_drawn(row.as_slice(), f);
    full
}
