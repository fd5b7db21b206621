// RejBoundedPoly: small numbers, drawn by rejection out of half bytes.
// eta is a number with a clause: two functions ask for it, and a type with its conversion from a set would be more lines than the two clauses.
// It is a value: the standard has two cases by it, in two functions. A constant in the type would leave both, and add a choice of the type.
// Bounds of a row's numbers stand in clauses: rows are plain, since one that is lent to be filled may hold anything before.
ghost use Rattle.std.specs.Prelude.{◌≡◌, ◌<◌, T, ◌⊎◌, ◌++◌, length, ◌==◌};
ghost use Rattle.standards.specs.Lists.{table, at, all_below};
ghost use Rattle.standards.specs.MlDsaParts.{half_byte_fits, coeff_from_half_byte, rej_bounded_poly};

use super::drawn::draw_row;
use draws::candidates::Candidates;
use draws::row::Row;
use hash::Hash;
use mldsa_parts::Q;

// CoeffFromHalfByte of a half byte that is not rejected. What it gives of the others is left out.
fn coeff_from_half_byte(eta: usize, z: u8) -> u32
    requires { z < 16 }
    ensures { result ≡ coeff_from_half_byte eta z }
{
    let z = u32::from(z);
    if eta == 2 {
        (2 + (Q - z % 5)) % Q
    } else {
        (4 + (Q - z)) % Q
    }
}

// Whether a half byte is not rejected.
fn half_byte_fits(eta: usize, z: u8) -> bool
    ensures { result ≡ half_byte_fits eta z }
{
    if eta == 2 { z < 15 } else { z < 9 }
}

// Half bytes, the low one of a byte first, of which those that are not rejected are kept. A block of SHAKE256 has 136 bytes.
#[derive(Clone, Copy)]
struct HalfBytes {
    eta: usize,
}

impl Candidates<528> for HalfBytes {
    ghost use Rattle.std.proofs.Common.{lit<, lit≤};
    ghost use Rattle.standards.specs.MlDsaParts.{half_byte, half_byte_fits, coeff_from_half_byte};
    ghost use Rattle.algebra.proofs.Candidates.{half_byte_block, coeff_below};

    type Number = u32;

    ghost BYTES = { 1 };

    const BYTES: usize = 1;

    ghost EACH = { 2 };

    const EACH: usize = 2;

    ghost GROUPS = { 1024 };

    const GROUPS: usize = 1024;

    ghost BLOCK = { 136 };

    const BLOCK: usize = 136;

    ghost candidate = { half_byte };

    ghost fits = { λ c. half_byte_fits c.eta };

    ghost number = { λ c. coeff_from_half_byte c.eta };

    ghost bound = { 8380417 };

    ghost of_block = { half_byte_block };

    ghost small = { λ c x _. coeff_below c.eta x };

    ghost block_some = { lit< tt };

    ghost block_fits = { lit≤ tt };

    ghost room_fits = { lit≤ tt };

    #[tactic(auto, unfolding(algebra::specs::Draws::accepted))]
    fn offer(self, group: &[u8], row: &mut Row<u32, 528>) {
        let (low, high) = (group[0] % 16, group[0] / 16);
        row.offer(
            coeff_from_half_byte(self.eta, low),
            half_byte_fits(self.eta, low),
        );
        row.offer(
            coeff_from_half_byte(self.eta, high),
            half_byte_fits(self.eta, high),
        );
    }
}

// RejBoundedPoly of a seed that is lent in two parts: whether the draw was full. The places of a draw that fell short are noughts: the row is
// stated either way, so the answer is a `bool`.
pub fn rej_bounded_poly<H: Hash>(eta: usize, rho: &[u8], n: &[u8], f: &mut [u32; 256]) -> bool
    requires { (eta ≡ 2) ⊎ (eta ≡ 4) }
    ensures full { result ≡ (length (rej_bounded_poly H.Hash.hashes eta (rho.now ++ n.now)) == 256) }
    ensures row { f.new ≡ table 256 (at (rej_bounded_poly H.Hash.hashes eta (rho.now ++ n.now))) }
    ensures below { T (all_below 8380417 f.new) }
{
    draw_row(HalfBytes { eta }, H::shake256(rho, n), f)
}
