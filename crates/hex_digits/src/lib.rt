// Bytes to hexadecimal digits and back. The kit's crate `hex` reads no spaces and line ends, and says what it gives by other definitions than those that the
// programs promise: what would be left to write and to prove around it is as long as these functions.
#![tactic(auto)]

ghost use Rattle.std.specs.Prelude.{◌≡◌, ℕ, ◌+◌, ◌*◌, ◌/◌, ◌%◌, ◌<◌, ◌≤◌, false, T, List, ◌++◌, length, IfOk, MatchOption, OnOk, string_bytes};
ghost use Rattle.standards.specs.Lists.{all_below};
ghost use Rattle.hex_digits.specs.Hex.{digit_of, hex_of, value_of, is_space, values_of, is_hex, paired, bytes_of};

use std::alloc::{AllocError, Global};

// The digit of a number below 16, for which there is one.
fn digit(n: u8) -> u8
    requires { n < 16 }
    ensures { result ≡ digit_of n }
{
    char::from_digit(u32::from(n), 16).unwrap() as u8
}

// The number of a digit, if it is one.
fn value(c: u8) -> Option<u8>
    ensures { MatchOption result (value_of c ≡ 16) (λ v. (v ≡ value_of c) × (v < 16)) }
{
    char::from(c).to_digit(16).map(|v| v as u8)
}

fn is_space(c: u8) -> bool
    ensures { result ≡ is_space c }
{
    matches!(c, b' ' | b'\n' | b'\r')
}

// Adds the digits of the bytes to a text, small letters and nothing between.
#[tactic(auto, using(crate::proofs::Digits::hex_steps))]
pub fn write_hex(text: &mut Vec<u8>, bytes: &[u8]) -> Result<(), AllocError>
    ensures { OnOk result (text.new.items ≡ text.old.items ++ hex_of bytes.now) }
{
    for b in bytes {
        text.push(digit(b / 16))?;
        text.push(digit(b % 16))?;
    }
    Ok(())
}

// The digits of the bytes as a text. Digits are ASCII, and so UTF-8.
#[tactic(auto, using(crate::proofs::Digits::hex_utf8))]
pub fn hex_text(heap: Global, bytes: &[u8]) -> Result<String, AllocError>
    ensures { IfOk result (λ text. string_bytes text ≡ hex_of bytes.now) }
{
    let mut digits = Vec::new(heap);
    write_hex(&mut digits, bytes)?;
    Ok(String::from_utf8(digits).unwrap())
}

// The values of a text's digits, or nothing where something else stands among them.
#[tactic(auto, using(crate::proofs::Digits::value_steps))]
fn values(heap: Global, text: &[u8]) -> Result<Option<Vec<u8>>, AllocError>
    ensures { IfOk result (λ o. MatchOption o (all_below 16 (values_of text.now) ≡ false) (λ v. (v.items ≡ values_of text.now) × T (all_below 16 v.items))) }
{
    let mut digits = Vec::new(heap);
    for &c in text {
        if is_space(c) {
            continue;
        }
        let Some(v) = value(c) else {
            return Ok(None);
        };
        digits.push(v)?;
    }
    Ok(Some(digits))
}

// The bytes of pairs of digits.
#[tactic(auto, using(crate::proofs::Digits::pair_steps))]
fn join(heap: Global, digits: &[u8]) -> Result<Vec<u8>, AllocError>
    requires { T (all_below 16 digits.now) }
    ensures { IfOk result (λ v. v.items ≡ paired digits.now) }
{
    let mut bytes = Vec::new(heap);
    for [high, low] in digits.as_chunks::<2>().0 {
        bytes.push(16 * high + low)?;
    }
    Ok(bytes)
}

// The bytes of a text of hexadecimal digits, in which spaces and line ends do not matter; nothing, if it is not one. An odd number of
// digits is not one.
pub fn read_hex(heap: Global, text: &[u8]) -> Result<Option<Vec<u8>>, AllocError>
    ensures { IfOk result (λ o. MatchOption o (is_hex text.now ≡ false) (λ v. T (is_hex text.now) × (v.items ≡ bytes_of text.now))) }
{
    match values(heap, text)? {
        Some(digits) if digits.len() % 2 == 0 => join(heap, &digits).map(Some),
        _ => Ok(None),
    }
}
