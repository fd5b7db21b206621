// A word of a line of outside vectors: hexadecimal digits, or `-` for no bytes.
ghost use Rattle.vector_lines.specs.Faults.{Says};
ghost use Rattle.vector_lines.specs.Words.{field_in};

use crate::fault::Fault;
use files::problem::Problem;
use hex_digits::read_hex;
use std::alloc::Global;

// The bytes of a field.
pub fn field(heap: Global, word: &str) -> Result<Vec<u8>, Fault>
    ensures { Says (λ v. v.items) result (field_in word.now) }
{
    if word == "-" {
        return Ok(Vec::new(heap));
    }
    Ok(read_hex(heap, word.as_bytes())?.ok_or(Problem::Unreadable)?)
}
