// How the widths at which a scheme packs its numbers are read.
ghost use Rattle.std.specs.Prelude.{◌≡◌, ◌*◌, ◌<◌, ◌^◌};
ghost use Rattle.std.specs.Mem.{type_size};
ghost use Rattle.lines.specs.Problems.{viewed};
ghost use Rattle.bitpack.specs.declared.problem.Problem.{Problem};
ghost use Rattle.bitpack.specs.Answers.{width_of};

use crate::problem::Problem;
use packing::{Packed, Width};

// A scheme, by the words that its numbers are held in.
pub trait Scheme: Packed {
    // what another width is answered
    ghost OTHER_WIDTH: { Problem };

    const OTHER_WIDTH: Problem;

    // A row of 256 of its words has room in memory.
    ghost has_room: { 256 * type_size Self.row < 2 ^ 63 };
}

impl Scheme for u16 {
    ghost use Rattle.bitpack.specs.declared.problem.Problem.TheVariants.{KemWidth};
    ghost use Rattle.bitpack.specs.Widths.{kem_room};

    ghost OTHER_WIDTH = { KemWidth };

    const OTHER_WIDTH: Problem = Problem::KemWidth;

    ghost has_room = { kem_room };
}

impl Scheme for u32 {
    ghost use Rattle.bitpack.specs.declared.problem.Problem.TheVariants.{DsaWidth};
    ghost use Rattle.bitpack.specs.Widths.{dsa_room};

    ghost OTHER_WIDTH = { DsaWidth };

    const OTHER_WIDTH: Problem = Problem::DsaWidth;

    ghost has_room = { dsa_room };
}

// The width that a word writes.
#[tactic(auto, using(crate::proofs::Parsed::width_steps))]
pub fn width<W: Scheme>(word: &str) -> Result<Width<W>, Problem>
    ensures { viewed (λ w. w.bits) result ≡ width_of W.width W.OTHER_WIDTH word.now }
{
    let bits = word.parse::<usize>()?;
    Width::try_from(bits).map_err(|_| W::OTHER_WIDTH)
}
