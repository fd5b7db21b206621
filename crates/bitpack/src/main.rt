// Packs 256 numbers into bytes, and unpacks them, a line of standard input at a time:
//     kem pack WIDTH NUMBERS        dsa pack WIDTH NUMBERS
//     kem unpack WIDTH DIGITS       dsa unpack WIDTH DIGITS
// The answer is a line of hexadecimal digits, or of numbers, or says what is wrong.
#![tactic(auto)]

ghost use Rattle.std.specs.Prelude.{OnOk};
ghost use Rattle.lines.specs.Answers.{AnswersLines};
ghost use Rattle.bitpack.specs.Answers.{Answers};

use answers::answer;
use lines::{answer_lines, serve};
use std::alloc::Global;
use std::io::{self, BufRead, Write};

mod answers;
mod problem;
mod read;
mod width;

// Answers each line of the input. What is written is a function of the input, but for lines at which there is no memory. The clause names this program's
// answers; what is the same in every program is `answer_lines`.
fn run<R: BufRead + Drop, W: Write>(heap: Global, input: R, out: &mut W) -> io::Result<()>
    ensures { OnOk result (AnswersLines Answers (R.remaining input) (W.contents out.old) (W.contents out.new)) }
{
    answer_lines(heap, input, out, |line| answer(heap, line))
}

fn main(rt: HostRuntime) -> io::Result<()> {
    serve(&rt, run)
}
