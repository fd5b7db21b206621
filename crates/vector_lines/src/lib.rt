// What `vectors` says of outside vectors, a line each, over any hashes:
//     kem SET d z m ek dk c K
//     dsa SET xi ctx message coin pk sk sig
// Each field is hexadecimal digits, or `-` for no bytes.
#![tactic(auto)]

ghost use Rattle.std.specs.Prelude.{◌≡◌, ℕ, List, Result, map, IfOk, OnOk, IfSome, ⊤};
ghost use Rattle.std.specs.Io.KnownBytes.{Appends};
ghost use Rattle.std.specs.Str.Lines.{lines};
ghost use Rattle.vector_lines.specs.Faults.{Says, said_of};
ghost use Rattle.vector_lines.specs.Lines.{words_said, line_said, report};

pub mod dsa;
pub mod fault;
mod field;
pub mod kem;

use dsa::{DsaWords, check_dsa_line};
use fault::Fault;
use files::problem::Problem;
use hash::Hash;
use kem::{KemWords, check_kem_line};
use lines::words::line_words;
use std::alloc::{AllocError, Global};
use std::io::{self, BufRead, Write};

// The words of a line.
#[tactic(auto, using(crate::proofs::Words::kem_words, crate::proofs::Words::dsa_words, crate::proofs::Words::other_words, crate::proofs::Words::fewer_words, crate::proofs::Words::more_words))]
fn check_words<H: Hash>(heap: Global, words: &[&str]) -> Result<(), Fault>
    ensures { Says (λ _. tt) result (words_said H.Hash.hashes (map (λ w. w.now) words.now)) }
{
    match words {
        ["kem", set, d, z, m, ek, dk, c, key] => {
            let words = KemWords {
                d,
                z,
                m,
                ek,
                dk,
                c,
                key,
            };
            check_kem_line::<H>(heap, set, words)
        }
        ["dsa", set, xi, ctx, message, coin, pk, sk, sig] => {
            let words = DsaWords {
                xi,
                ctx,
                message,
                coin,
                pk,
                sk,
                sig,
            };
            check_dsa_line::<H>(heap, set, words)
        }
        _ => Err(Fault::No(Problem::Unreadable)),
    }
}

// A line.
pub fn check_line<H: Hash>(heap: Global, line: &str) -> Result<(), Fault>
    ensures { Says (λ _. tt) result (line_said H.Hash.hashes line.now) }
{
    check_words::<H>(heap, &line_words(heap, line)?)
}

// What is wrong with a line, if something is. Want of memory says nothing of the line, and is passed on.
fn fault_of(checked: Result<(), Fault>) -> Result<Option<Fault>, AllocError>
    ensures { (said : Result ⊤ (List ℕ)) → Says (λ _. tt) checked said → IfOk result (λ o. said ≡ said_of o) }
{
    match checked {
        Ok(()) => Ok(None),
        Err(Fault::No(Problem::NoMemory(e))) => Err(e),
        Err(fault) => Ok(Some(fault)),
    }
}

// Reads lines till something is wrong with one, and says what, or how many there are. Want of memory, and more lines than can be counted, are errors:
// the count is kept by hand, since `enumerate` has none after the loop and does not say that it fits.
pub fn run<H: Hash, R: BufRead + Drop, W: Write>(
    heap: Global,
    input: R,
    out: &mut W,
) -> io::Result<()>
    ensures { OnOk result (IfSome (R.remaining input) (λ text. Appends (W.contents out.old) (W.contents out.new) (report H.Hash.hashes 0 (lines text)))) }
{
    let mut n: u64 = 0;
    for line in input.lines(heap) {
        n = n.checked_add(1).ok_or(io::ErrorKind::Other)?;
        if let Some(fault) = fault_of(check_line::<H>(heap, line?.as_str()))? {
            return writeln!(out, "line {n} {fault}");
        }
    }
    writeln!(out, "read {n}")
}

#[cfg(test)]
mod tests {
    use crate::check_line;
    use crate::fault::Fault;
    use files::problem::Problem;
    use sets::types::Refusal;
    use std::alloc::Global;
    use std::process::Abort;
    use std::test::Fail;

    // What is wrong with a line of outside vectors: words, then the set, digits, the lengths of the seeds.
    fn says(rt: &impl Abort, heap: Global, line: &str, fault: Fault) {
        assert_eq!(rt; check_line::<plain::Plain>(heap, line), Err(fault));
    }

    #[test]
    fn faults_of_lines(rt: HostRuntime) -> Result<(), Fail> {
        let heap = rt.alloc();
        says(
            &rt,
            heap,
            "kem 1 00 00 00 - - -",
            Fault::No(Problem::Unreadable),
        );
        says(
            &rt,
            heap,
            "KEM 1 00 00 00 - - - -",
            Fault::No(Problem::Unreadable),
        );
        says(
            &rt,
            heap,
            "kem 4 0 00 00 - - - -",
            Fault::No(Problem::Refused(Refusal::NoSet)),
        );
        says(
            &rt,
            heap,
            "kem 1 0 00 00 - - - -",
            Fault::No(Problem::Unreadable),
        );
        says(
            &rt,
            heap,
            "kem 1 00 00 00 - - - -",
            Fault::No(Problem::Refused(Refusal::Length)),
        );
        Ok(())
    }
}
