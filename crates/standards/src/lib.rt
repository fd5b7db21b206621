// The standards and what is promised of them: definitions alone, in specs/. There is no code in this crate.
#![tactic(auto)]
