// A text is answered a line at a time.
#![tactic(auto)]

ghost use Rattle.std.specs.Prelude.{◌≡◌, ◌≢◌, [], ◌∷◌, ◌++◌, length, Ok, IsSome, OnOk, MatchOption, codes};
ghost use Rattle.std.specs.Io.KnownBytes.{Appends};
ghost use Rattle.std.specs.Fn.{FnReturnsAt};
ghost use Rattle.lines.specs.Answers.{Shows, AnswersLines};
ghost use Rattle.lines.specs.Words.{words_of};

use std::alloc::Global;
use std::fmt;
use std::io::{self, BufRead, BufReader, LineWriter, Printer, Write};

pub mod failure;
pub mod words;

// How much of a long line is written at a time: what a `LineWriter` holds.
const PART: usize = 1024;

// Writes a line and its end. A long line goes out part by part, and its end with the last part: a line end alone would take a page of a pipe's room to itself.
fn write_line<W: Write>(out: &mut W, line: &str) -> io::Result<()>
    ensures { OnOk result (Appends (W.contents out.old) (W.contents out.new) (line.now ++ codes "\n")) }
{
    for part in line.as_bytes().chunks(PART) {
        out.write_all(part)?;
    }
    out.write_all(b"\n")
}

// Answers each line of the input by a line: what `answer` gives, or behind `cannot: ` what is wrong. The clause says what is written
// where the input's bytes are known and the problems say what they print.
pub fn answer_lines<R, W, E, F>(heap: Global, input: R, out: &mut W, answer: F) -> io::Result<()>
where
    R: BufRead + Drop,
    W: Write,
    E: fmt::Display + Drop,
    F: Fn(&str) -> Result<String, E>,
    requires { F.IsAlwaysCallable answer }
    ensures { ((e : _) → IsSome (E.output e)) → OnOk result (AnswersLines (λ line shown. (r : _) × FnReturnsAt F.Fn answer line r × Shows E.output r shown)
        (R.remaining input) (W.contents out.old) (W.contents out.new)) }
{
    for line in input.lines(heap) {
        match answer(line?.as_str()) {
            Ok(text) => write_line(out, &text)?,
            Err(problem) => writeln!(out, "cannot: {problem}")?,
        }
    }
    Ok(())
}

// Runs a program on its standard input, through a buffer, and its standard output, a line at a time. No clause knows the bytes of
// either, so what is written is what `run` promises of the reader and the writer it is lent.
pub fn serve<'a, R, F>(rt: &'a R, run: F) -> io::Result<()>
where
    R: Input + Print + AllocGlobal,
    F: FnOnce(Global, BufReader<R::Reader>, &mut LineWriter<Printer<'a, R>>) -> io::Result<()>,
    requires { F.IsAlwaysCallable run }
    ensures { OnOk result ((heap : _) × (input : _) × (out : _) × (new : _) × F.post run heap input out (Ok tt) new) }
{
    let heap = rt.alloc();
    let input = BufReader::new(heap, rt.reader())?;
    let mut out = LineWriter::new(heap, io::writer(rt))?;
    run(heap, input, &mut out)
}

// The words of a line that has three: they take no memory, where `words::line_words` does for a line of any number. Std's words serve: `LineWords` adds that
// they can be counted, which three need not be.
#[tactic(auto, using(crate::proofs::Split::next_word))]
pub fn three_words(line: &str) -> Option<(&str, &str, &str)>
    ensures { MatchOption result (length (words_of line.now) ≢ 3) (λ w. words_of line.now ≡ w.0.now ∷ w.1.now ∷ w.2.now ∷ []) }
{
    let mut words = line.split_whitespace();
    let three = (words.next()?, words.next()?, words.next()?);
    words.next().is_none().then_some(three)
}
