// What is wrong with a line.
// `Display` and `From` by hand: a derive of the kit's `thiserror` states neither the message nor which variant `From` makes.
ghost use Rattle.std.specs.Prelude.{◌≡◌};

use lines::failure::Failure;
use std::fmt;
use std::num::ParseIntError;

#[derive(Clone, Copy)]
pub enum Problem {
    Usage,
    KemWidth,
    DsaWidth,
    NoNumber,
    TooLarge,
    Numbers(usize),
    NotHex,
    Bytes(usize, usize),
}

impl fmt::Display for Problem {
    ghost use Rattle.std.specs.Prelude.{Some};
    ghost use Rattle.bitpack.specs.Problems.{text_of};

    ghost output = { λ problem. Some (text_of problem) };

    fn fmt<W: fmt::Write>(&self, f: &mut fmt::Formatter<W>) -> fmt::Result {
        match self {
            Problem::Usage => f.write_str(
                "a line is: kem|dsa pack WIDTH NUMBERS, or kem|dsa unpack WIDTH DIGITS",
            ),
            Problem::KemWidth => f.write_str(
                "the width of ML-KEM's numbers is 1, 4, 5, 6, 10, 11 or 12",
            ),
            Problem::DsaWidth => f.write_str(
                "the width of ML-DSA's numbers is 3, 4, 6, 10, 13, 18 or 20",
            ),
            Problem::NoNumber => f.write_str("a word is not a number"),
            Problem::TooLarge => f.write_str("a number does not fit the width"),
            Problem::Numbers(n) => write!(f, "{n} numbers, where 256 are wanted"),
            Problem::NotHex => f.write_str(
                "the bytes are not hexadecimal digits, an even number of them",
            ),
            Problem::Bytes(n, want) => write!(f, "{n} bytes, where {want} are wanted"),
        }
    }
}

// One `From<E> for Failure<E>` over any E would overlap with that of `AllocError`.
impl From<Problem> for Failure<Problem> {
    ghost use Rattle.lines.specs.declared.failure.Failure.TheVariants.{Problem};

    ghost from_gives = { λ problem failure. failure ≡ Problem problem };

    fn from(problem: Problem) -> Failure<Problem> {
        Failure::Problem(problem)
    }
}

impl From<ParseIntError> for Problem {
    ghost use Rattle.bitpack.specs.declared.problem.Problem.TheVariants.{NoNumber};

    ghost from_gives = { λ _ problem. problem ≡ NoNumber };

    fn from(_error: ParseIntError) -> Problem {
        Problem::NoNumber
    }
}
