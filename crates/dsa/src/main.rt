// ML-DSA on files of hexadecimal digits, by the hashes of FIPS 202:
//     dsa keys SET XI                     prints the public key and the secret key of a seed
//     dsa sign SET SK CTX MESSAGE COIN    prints the signature of a message with a context
//     dsa verify SET PK CTX MESSAGE SIG   prints `good` or `bad`
// SET is 1, 2 or 3, the others are names of files. A coin of noughts is deterministic signing. A refusal is printed as `no` and its number.
#![tactic(auto)]

ghost use Rattle.std.specs.Prelude.{◌≡◌, IfOk, codes};
ghost use Rattle.standards.specs.Fips202.{fips202};
ghost use Rattle.files.specs.Texts.{text_of};
ghost use Rattle.files.specs.Dsa.{keys_answer, sign_answer, verify_answer};

use files::dsa::{keys, sign, verify};
use files::input::read;
use fips202::functions::Fips202;
use std::alloc::{AllocError, Global};
use std::fs::File;
use std::io::Write;
use std::{env, io};

const USAGE: &str =
    "usage: dsa keys SET XI | dsa sign SET SK CTX MESSAGE COIN | dsa verify SET PK CTX MESSAGE SIG\n";

// The text of a file; nothing, if it can't be read.
fn text(rt: &HostRuntime, path: &str) -> io::Result<Option<Vec<u8>>> {
    match File::open(rt, path) {
        Ok(file) => read(rt.alloc(), file),
        Err(_) => Ok(None),
    }
}

// What a call on four files answers, or how to call. The words are the program's commands: each arm is another call.
fn answer(
    heap: Global,
    call: &str,
    set: &[u8],
    key: Option<&[u8]>,
    ctx: Option<&[u8]>,
    message: Option<&[u8]>,
    last: Option<&[u8]>,
) -> Result<Vec<u8>, AllocError>
    ensures sign { call.now ≡ codes "sign" → IfOk result (λ v. v.items ≡ sign_answer fips202 set.now (text_of key.entry) (text_of ctx.entry) (text_of message.entry) (text_of last.entry)) }
    ensures verify { call.now ≡ codes "verify" → IfOk result (λ v. v.items ≡ verify_answer fips202 set.now (text_of key.entry) (text_of ctx.entry) (text_of message.entry) (text_of last.entry)) }
{
    match call {
        "sign" => sign::<Fips202>(heap, set, key, ctx, message, last),
        "verify" => verify::<Fips202>(heap, set, key, ctx, message, last),
        _ => Vec::from_slice(heap, USAGE.as_bytes()),
    }
}

// Keys of a seed's file.
fn print_keys(rt: &HostRuntime, set: &str, xi: &str) -> io::Result<()> {
    let xi = text(rt, xi)?;
    let lines = keys::<Fips202>(rt.alloc(), set.as_bytes(), xi.as_deref())?;
    rt.stdout().write_all(lines.as_slice())
}

// A signature, or whether one is good, of four files.
fn print_answer(rt: &HostRuntime, call: &str, set: &str, files: [&str; 4]) -> io::Result<()> {
    let [key, ctx, message, last] = files;
    let key = text(rt, key)?;
    let ctx = text(rt, ctx)?;
    let message = text(rt, message)?;
    let last = text(rt, last)?;
    let lines = answer(
        rt.alloc(),
        call,
        set.as_bytes(),
        key.as_deref(),
        ctx.as_deref(),
        message.as_deref(),
        last.as_deref(),
    )?;
    rt.stdout().write_all(lines.as_slice())
}

fn main(rt: HostRuntime) -> io::Result<()> {
    let words: Vec<String> = env::args(&rt)?.collect(rt.alloc())?;
    match words.as_slice() {
        [_, call, set, xi] if call.as_str() == "keys" => print_keys(&rt, set.as_str(), xi.as_str()),
        [_, call, set, key, ctx, message, last] => print_answer(
            &rt,
            call.as_str(),
            set.as_str(),
            [key.as_str(), ctx.as_str(), message.as_str(), last.as_str()],
        ),
        _ => rt.print(USAGE),
    }
}
