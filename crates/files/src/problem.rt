// Why an answer has no lines of its own.
// `Display` and `From` by hand: a derive of the kit's `thiserror` states neither the message nor which variant `From` makes.
ghost use Rattle.std.specs.Prelude.{◌≡◌, Some};
ghost use Rattle.files.specs.declared.problem.Problem.TheVariants.{Refused, NoMemory};
ghost use Rattle.files.specs.Problems.{problem_text};

use sets::types::Refusal;
use std::alloc::AllocError;
use std::fmt;

// The number of a file that can't be used: the first after the refusals' own.
pub(crate) const UNREADABLE: u32 = 7;

// A refusal, a file that can't be read or isn't hexadecimal, or want of memory. That is a variant here, and no type around the problem as in `lines`:
// refusals, a type of another crate, come in by `?`, which only a type of this crate can take in.
#[derive(Clone, Copy, PartialEq, Eq, Debug)]
pub enum Problem {
    Refused(Refusal),
    Unreadable,
    NoMemory(AllocError),
}

impl From<Refusal> for Problem {
    ghost from_gives = { λ r p. p ≡ Refused r };

    fn from(refusal: Refusal) -> Problem {
        Problem::Refused(refusal)
    }
}

impl From<AllocError> for Problem {
    ghost from_gives = { λ e p. p ≡ NoMemory e };

    fn from(e: AllocError) -> Problem {
        Problem::NoMemory(e)
    }
}

// The number by which a program prints it.
impl fmt::Display for Problem {
    ghost output = { λ p. Some (problem_text p) };

    fn fmt<W: fmt::Write>(&self, f: &mut fmt::Formatter<W>) -> fmt::Result {
        match self {
            Problem::Refused(r) => write!(f, "{}", u32::from(*r)),
            Problem::Unreadable => write!(f, "{UNREADABLE}"),
            Problem::NoMemory(_) => write!(f, "out of memory"),
        }
    }
}
