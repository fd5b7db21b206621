// Runs outside vectors, a line of standard input each, by the hashes of FIPS 202:
//     kem SET d z m ek dk c K
//     dsa SET xi ctx message coin pk sk sig
// SET is 1, 2 or 3; each field is hexadecimal digits, or `-` for none. A line is checked by making its keys, encapsulating and decapsulating, or signing and
// verifying. It prints `line 5 differs at c`, or `line 5 no 7` for other words, or the number by which a call refuses, and stops there; or, at the end,
// `read 12`.
#![tactic(auto)]

ghost use Rattle.std.specs.Prelude.{IfSome, OnOk};
ghost use Rattle.std.specs.Io.KnownBytes.{Appends};
ghost use Rattle.std.specs.Str.Lines.{lines};
ghost use Rattle.standards.specs.Fips202.{fips202};
ghost use Rattle.vector_lines.specs.Lines.{report};

use fips202::functions::Fips202;
use lines::serve;
use std::alloc::Global;
use std::io::{self, BufRead, Write};

// What is written is a function of the input.
fn run<R: BufRead + Drop, W: Write>(heap: Global, input: R, out: &mut W) -> io::Result<()>
    ensures { OnOk result (IfSome (R.remaining input) (λ text. Appends (W.contents out.old) (W.contents out.new) (report fips202 0 (lines text)))) }
{
    vector_lines::run::<Fips202, R, W>(heap, input, out)
}

fn main(rt: HostRuntime) -> io::Result<()> {
    serve(&rt, run)
}
