// What stops an answer.
// `Display` and `From` by hand: a derive of the kit's `thiserror` states neither the message nor which variant `From` makes.
ghost use Rattle.std.specs.Prelude.{◌≡◌};

use std::alloc::AllocError;
use std::fmt;

// What is wrong with the line, or want of memory.
#[derive(Clone, Copy)]
pub enum Failure<E> {
    Problem(E),
    NoMemory,
}

impl<E: fmt::Display> fmt::Display for Failure<E> {
    ghost use Rattle.lines.specs.Problems.{printed};

    ghost output = { printed E.output };

    fn fmt<W: fmt::Write>(&self, f: &mut fmt::Formatter<W>) -> fmt::Result {
        match self {
            Failure::Problem(problem) => problem.fmt(f),
            Failure::NoMemory => f.write_str("no memory"),
        }
    }
}

impl<E> From<AllocError> for Failure<E> {
    ghost use Rattle.lines.specs.declared.failure.Failure.TheVariants.{NoMemory};

    ghost from_gives = { λ _ failure. failure ≡ NoMemory };

    fn from(_error: AllocError) -> Failure<E> {
        Failure::NoMemory
    }
}
