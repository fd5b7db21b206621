// RejNTTPoly: numbers below q, drawn by rejection out of a public stream.
// Bounds of a row's numbers stand in clauses: rows are plain, since one that is lent to be filled may hold anything before.
ghost use Rattle.std.specs.Prelude.{◌≡◌, T, ◌++◌, length, ◌==◌};
ghost use Rattle.standards.specs.Lists.{table, at, all_below};
ghost use Rattle.standards.specs.MlDsaParts.{rej_ntt_poly};

use super::drawn::draw_row;
use draws::candidates::Candidates;
use draws::row::Row;
use hash::Hash;
use mldsa_parts::Q;

// Numbers of 23 bits, one in a group of three bytes, of which those below q are kept. A block of SHAKE128 has 56 groups.
#[derive(Clone, Copy)]
struct BelowQ;

impl Candidates<312> for BelowQ {
    ghost use Rattle.std.specs.Prelude.{nat_lt};
    ghost use Rattle.std.proofs.Common.{lit<, lit≤};
    ghost use Rattle.std.proofs.lemmas.Bool.{ltb-true};
    ghost use Rattle.standards.specs.MlDsaParts.{candidate23};
    ghost use Rattle.algebra.proofs.Candidates.{candidate23_block};

    type Number = u32;

    ghost BYTES = { 3 };

    const BYTES: usize = 3;

    ghost EACH = { 1 };

    const EACH: usize = 1;

    ghost GROUPS = { 2048 };

    const GROUPS: usize = 2048;

    ghost BLOCK = { 56 };

    const BLOCK: usize = 56;

    ghost candidate = { candidate23 };

    ghost fits = { λ _ x. nat_lt x 8380417 };

    ghost number = { λ _ x. x };

    ghost bound = { 8380417 };

    ghost of_block = { candidate23_block };

    ghost small = { λ _ x e. ltb-true x 8380417 e };

    ghost block_some = { lit< tt };

    ghost block_fits = { lit≤ tt };

    ghost room_fits = { lit≤ tt };

    #[tactic(auto, unfolding(algebra::specs::Draws::accepted))]
    fn offer(self, group: &[u8], row: &mut Row<u32, 312>) {
        let a = u32::from(group[0]);
        let b = u32::from(group[1]);
        let c = u32::from(group[2]);
        let x = a + 256 * b + 65536 * (c % 128);
        row.offer(x, x < Q);
    }
}

// RejNTTPoly of a seed that is lent in two parts: whether the draw was full. The places of a draw that fell short are noughts: the row is
// stated either way, so the answer is a `bool`.
pub fn rej_ntt_poly<H: Hash>(rho: &[u8], entry: &[u8], f: &mut [u32; 256]) -> bool
    ensures full { result ≡ (length (rej_ntt_poly H.Hash.hashes (rho.now ++ entry.now)) == 256) }
    ensures row { f.new ≡ table 256 (at (rej_ntt_poly H.Hash.hashes (rho.now ++ entry.now))) }
    ensures below { T (all_below 8380417 f.new) }
{
    draw_row(BelowQ, H::shake128(rho, entry), f)
}
