// ML-KEM on files of hexadecimal digits, by the hashes of FIPS 202:
//     kem keys SET D Z          prints the encapsulation key and the decapsulation key of two seeds
//     kem encaps SET PK M       prints the shared key and the ciphertext of a coin
//     kem decaps SET SK TEXT    prints the shared key of a ciphertext
// SET is 1, 2 or 3, the others are names of files. A refusal is printed as `no` and its number.
#![tactic(auto)]

ghost use Rattle.std.specs.Prelude.{◌≡◌, IfOk, codes};
ghost use Rattle.standards.specs.Fips202.{fips202};
ghost use Rattle.files.specs.Texts.{text_of};
ghost use Rattle.files.specs.Kem.{keys_answer, encaps_answer, decaps_answer};

use files::input::read;
use files::kem::{decaps, encaps, keys};
use fips202::functions::Fips202;
use std::alloc::{AllocError, Global};
use std::fs::File;
use std::io::Write;
use std::{env, io};

const USAGE: &str = "usage: kem keys SET D Z | kem encaps SET PK M | kem decaps SET SK TEXT\n";

// The text of a file; nothing, if it can't be read.
fn text(rt: &HostRuntime, path: &str) -> io::Result<Option<Vec<u8>>> {
    match File::open(rt, path) {
        Ok(file) => read(rt.alloc(), file),
        Err(_) => Ok(None),
    }
}

// What a call answers, or how to call. The words are the program's commands: each arm is another call.
fn answer(
    heap: Global,
    call: &str,
    set: &[u8],
    first: Option<&[u8]>,
    second: Option<&[u8]>,
) -> Result<Vec<u8>, AllocError>
    ensures keys { call.now ≡ codes "keys" → IfOk result (λ v. v.items ≡ keys_answer fips202 set.now (text_of first.entry) (text_of second.entry)) }
    ensures encaps { call.now ≡ codes "encaps" → IfOk result (λ v. v.items ≡ encaps_answer fips202 set.now (text_of first.entry) (text_of second.entry)) }
    ensures decaps { call.now ≡ codes "decaps" → IfOk result (λ v. v.items ≡ decaps_answer fips202 set.now (text_of first.entry) (text_of second.entry)) }
{
    match call {
        "keys" => keys::<Fips202>(heap, set, first, second),
        "encaps" => encaps::<Fips202>(heap, set, first, second),
        "decaps" => decaps::<Fips202>(heap, set, first, second),
        _ => Vec::from_slice(heap, USAGE.as_bytes()),
    }
}

fn main(rt: HostRuntime) -> io::Result<()> {
    let heap = rt.alloc();
    let words: Vec<String> = env::args(&rt)?.collect(heap)?;
    let [_, call, set, first, second] = words.as_slice() else {
        return rt.print(USAGE);
    };
    let one = text(&rt, first.as_str())?;
    let other = text(&rt, second.as_str())?;
    let lines = answer(
        heap,
        call.as_str(),
        set.as_str().as_bytes(),
        one.as_deref(),
        other.as_deref(),
    )?;
    rt.stdout().write_all(lines.as_slice())
}
