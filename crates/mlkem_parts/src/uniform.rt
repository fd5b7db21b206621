// SampleNTT: numbers below q, drawn by rejection out of a public stream.
// Bounds of a row's numbers stand in clauses: rows are plain, since one that is lent to be filled may hold anything before.
ghost use Rattle.std.specs.Prelude.{◌≡◌, T, ◌≢◌, ◌++◌, length, IfSome, MatchOption};
ghost use Rattle.standards.specs.Lists.{all_below};
ghost use Rattle.standards.specs.MlKemParts.{sample_ntt};

use crate::Q;
use draws::candidates::Candidates;
use draws::draw;
use draws::row::Row;
use hash::Hash;

// Numbers of 12 bits, two in a group of three bytes, of which those below q are kept. A block of SHAKE128 has 56 groups.
#[derive(Clone, Copy)]
struct BelowQ;

impl Candidates<368> for BelowQ {
    ghost use Rattle.std.specs.Prelude.{nat_lt};
    ghost use Rattle.std.proofs.Common.{lit<, lit≤};
    ghost use Rattle.std.proofs.lemmas.Bool.{ltb-true};
    ghost use Rattle.standards.specs.MlKemParts.{candidate12};
    ghost use Rattle.algebra.proofs.Candidates.{candidate12_block};

    type Number = u16;

    ghost BYTES = { 3 };

    const BYTES: usize = 3;

    ghost EACH = { 2 };

    const EACH: usize = 2;

    ghost GROUPS = { 1024 };

    const GROUPS: usize = 1024;

    ghost BLOCK = { 56 };

    const BLOCK: usize = 56;

    ghost candidate = { candidate12 };

    ghost fits = { λ _ x. nat_lt x 3329 };

    ghost number = { λ _ x. x };

    ghost bound = { 3329 };

    ghost of_block = { candidate12_block };

    ghost small = { λ _ x e. ltb-true x 3329 e };

    ghost block_some = { lit< tt };

    ghost block_fits = { lit≤ tt };

    ghost room_fits = { lit≤ tt };

    #[tactic(auto, unfolding(algebra::specs::Draws::accepted))]
    fn offer(self, group: &[u8], row: &mut Row<u16, 368>) {
        let a = u16::from(group[0]);
        let b = u16::from(group[1]);
        let c = u16::from(group[2]);
        let x = a + 256 * (b % 16);
        row.offer(x, x < Q);
        let y = b / 16 + 16 * c;
        row.offer(y, y < Q);
    }
}

// SampleNTT of a seed that is lent in two parts, or nothing if the candidates ran out before 256 numbers were kept.
pub fn sample_ntt<H: Hash>(rho: &[u8], entry: &[u8]) -> Option<[u16; 256]>
    ensures drawn { MatchOption result (length (sample_ntt H.Hash.hashes (rho.now ++ entry.now)) ≢ 256) (λ f. (length (sample_ntt H.Hash.hashes (rho.now ++ entry.now)) ≡ 256) × (f ≡ sample_ntt H.Hash.hashes (rho.now ++ entry.now))) }
    ensures below { IfSome result (λ f. T (all_below 3329 f)) }
{
    let mut row: Row<u16, 368> = Row::new();
    let mut reader = H::shake128(rho, entry);
    draw(BelowQ, &mut reader, &mut row)?;
    let mut f = [0u16; 256];
    f.copy_from_slice(row.as_slice());
    Some(f)
}
