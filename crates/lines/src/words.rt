// The words of a line, one after the other.
ghost use Rattle.std.specs.Prelude.{◌≡◌, ◌<◌, ◌^◌, length, map, IsUtf8, IfOk};
ghost use Rattle.std.specs.Str.Iter.{split_whitespace_rest};
ghost use Rattle.lines.specs.Words.{words_of};

use std::alloc::{AllocError, Global};
use std::str::SplitWhitespace;

// The words that are still to come, fewer than 2^64: a count of them does not overflow.
#[derive(Drop)]
pub struct LineWords<'a> {
    rest: SplitWhitespace<'a>,
    ghost utf8: { ∥ IsUtf8 (split_whitespace_rest rest) ∥₁ },
    ghost few: { length (words_of (split_whitespace_rest rest)) < 2 ^ 64 },
}

impl<'a> LineWords<'a> {
    ghost use Rattle.std.specs.Prelude.{◌≡◌};
    ghost use Rattle.lines.specs.Words.{words_of};
    ghost use Rattle.lines.specs.Left.{left};

    #[tactic(auto, using(crate::proofs::Left::left_first))]
    pub fn new(line: &'a str) -> Self
        ensures { left result ≡ words_of line.now }
    {
        LineWords {
            rest: line.split_whitespace(),
        }
    }
}

impl<'a> Iterator for LineWords<'a> {
    ghost use Rattle.std.specs.Iterator.{YieldsFirstRef, item_count};
    ghost use Rattle.lines.specs.Left.{left};

    type Item = &'a str;

    ghost next_gives = { YieldsFirstRef left };

    ghost remaining = { item_count left };

    #[tactic(auto, using(crate::proofs::Left::left_next))]
    fn next(&mut self) -> Option<&'a str> {
        self.rest.next()
    }
}

// All words of a line, for a pattern that takes it apart.
pub fn line_words(heap: Global, line: &str) -> Result<Vec<&str>, AllocError>
    ensures { IfOk result (λ v. map (λ w. w.now) v.items ≡ words_of line.now) }
{
    LineWords::new(line).collect(heap)
}
