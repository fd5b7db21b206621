// What `kem` and `dsa` answer, as functions of the words and files that they are given. The mains only read and print.
#![tactic(auto)]

pub mod dsa;
pub mod input;
pub mod kem;
pub mod problem;
pub mod texts;
