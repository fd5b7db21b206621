// What is wrong with a line of outside vectors.
// `Display` and `From` by hand: a derive of the kit's `thiserror` states neither the message nor which variant `From` makes.
ghost use Rattle.std.specs.Prelude.{◌≡◌, Some, ⊤};
ghost use Rattle.vector_lines.specs.declared.fault.Fault.TheVariants.{No};
ghost use Rattle.files.specs.declared.problem.Problem.TheVariants.{Refused, NoMemory};
ghost use Rattle.vector_lines.specs.Faults.{Says, field_name, fault_text, compared};

use files::problem::Problem;
use sets::types::Refusal;
use std::alloc::AllocError;
use std::fmt;

// A field that a line states and a call gives.
#[derive(Clone, Copy, PartialEq, Eq, Debug)]
pub enum Field {
    EncapsulationKey,
    DecapsulationKey,
    Ciphertext,
    SharedKey,
    PublicKey,
    SecretKey,
    Signature,
}

// By the names that the fields of a line go by.
impl fmt::Display for Field {
    ghost output = { λ field. Some (field_name field) };

    fn fmt<W: fmt::Write>(&self, f: &mut fmt::Formatter<W>) -> fmt::Result {
        f.write_str(match self {
            Field::EncapsulationKey => "ek",
            Field::DecapsulationKey => "dk",
            Field::Ciphertext => "c",
            Field::SharedKey => "K",
            Field::PublicKey => "pk",
            Field::SecretKey => "sk",
            Field::Signature => "sig",
        })
    }
}

// The first field that differs, or a call that refuses, other words than a line has, or want of memory.
#[derive(Clone, Copy, PartialEq, Eq, Debug)]
pub enum Fault {
    Differs(Field),
    No(Problem),
}

impl fmt::Display for Fault {
    ghost output = { λ fault. Some (fault_text fault) };

    fn fmt<W: fmt::Write>(&self, f: &mut fmt::Formatter<W>) -> fmt::Result {
        match self {
            Fault::Differs(field) => write!(f, "differs at {field}"),
            Fault::No(problem) => write!(f, "no {problem}"),
        }
    }
}

impl From<Problem> for Fault {
    ghost from_gives = { λ problem fault. fault ≡ No problem };

    fn from(problem: Problem) -> Fault {
        Fault::No(problem)
    }
}

impl From<Refusal> for Fault {
    ghost from_gives = { λ refusal fault. fault ≡ No (Refused refusal) };

    fn from(refusal: Refusal) -> Fault {
        Fault::No(Problem::Refused(refusal))
    }
}

impl From<AllocError> for Fault {
    ghost from_gives = { λ e fault. fault ≡ No (NoMemory e) };

    fn from(e: AllocError) -> Fault {
        Fault::No(Problem::NoMemory(e))
    }
}

// Whether a line states what a call gave.
pub fn compare(field: Field, stated: &[u8], made: &[u8]) -> Result<(), Fault>
    ensures { Says (λ _. tt) result (compared field stated.now made.now) }
{
    if stated == made {
        Ok(())
    } else {
        Err(Fault::Differs(field))
    }
}
