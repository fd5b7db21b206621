// Four states as they are kept: 100 words, lane i of state l at place 4 i + l. A struct can't have an array of vectors as a field, since the checker
// does not cover it; a permutation loads its vectors from here and stores them back, which is 25 moves each way.
ghost use Rattle.std.specs.Prelude.{◌≡◌, ℕ, ◌<◌};
ghost use Rattle.standards.specs.Fips202.{keccak_f};
ghost use Rattle.keccak_lanes.specs.FourStates.{state_of, state_in};

use crate::permute_four;
use std::simd::prelude::*;

// Four states, put side by side.
pub fn gathered(a: &[u64; 25], b: &[u64; 25], c: &[u64; 25], d: &[u64; 25]) -> [u64; 100]
    ensures first { state_in 0 result ≡ a.now }
    ensures second { state_in 1 result ≡ b.now }
    ensures third { state_in 2 result ≡ c.now }
    ensures fourth { state_in 3 result ≡ d.now }
{
    let mut words = [0; 100];
    for i in 0..25 {
        words[4 * i] = a[i];
        words[4 * i + 1] = b[i];
        words[4 * i + 2] = c[i];
        words[4 * i + 3] = d[i];
    }
    words
}

// State l alone.
#[tactic(auto, using(algebra::proofs::Tables::is_table))]
pub fn state(words: &[u64; 100], l: usize) -> [u64; 25]
    requires { l < 4 }
    ensures { result ≡ state_in l words.now }
{
    let mut state = [0; 25];
    for i in 0..25 {
        state[i] = words[4 * i + l];
    }
    state
}

// The vectors that lie in `words`.
fn loaded(words: &[u64; 100]) -> [u64x4; 25]
    ensures { (l : ℕ) → l < 4 → state_of l result ≡ state_in l words.now }
{
    let mut lanes = [u64x4::splat(0); 25];
    for i in 0..25 {
        lanes[i] = u64x4::from_array([
            words[4 * i],
            words[4 * i + 1],
            words[4 * i + 2],
            words[4 * i + 3],
        ]);
    }
    lanes
}

// Puts the vectors back.
fn store(lanes: &[u64x4; 25], words: &mut [u64; 100])
    ensures { (l : ℕ) → l < 4 → state_in l words.new ≡ state_of l lanes.now }
{
    for i in 0..25 {
        let [first, second, third, fourth] = lanes[i].to_array();
        words[4 * i] = first;
        words[4 * i + 1] = second;
        words[4 * i + 2] = third;
        words[4 * i + 3] = fourth;
    }
}

// Keccak-f[1600] of each state.
pub fn permute_states(words: &mut [u64; 100])
    ensures { (l : ℕ) → l < 4 → state_in l words.new ≡ keccak_f (state_in l words.old) }
{
    let mut lanes = loaded(words);
    permute_four(&mut lanes);
    store(&lanes, words);
}
