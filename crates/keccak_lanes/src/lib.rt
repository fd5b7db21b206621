// Keccak-f[1600] of four states side by side: 25 vectors of four lanes, state l in lane l of each.
#![tactic(auto)]

ghost use Rattle.std.specs.Prelude.{◌≡◌, ℕ, ◌-◌, ◌^◌, ◌<◌};
ghost use Rattle.std.specs.Int.Bits.{bit_xor, bit_and};
ghost use Rattle.standards.specs.Lists.{at};
ghost use Rattle.standards.specs.Fips202.{rotl, round, keccak_f};
ghost use Rattle.keccak_lanes.specs.FourStates.{EachState};

pub mod states;

use keccak::ROUND_CONSTANTS;
use std::simd::prelude::*;

// The parity of a column.
fn parity(a: u64x4, b: u64x4, c: u64x4, d: u64x4, e: u64x4) -> u64x4
    ensures { (l : ℕ) → l < 4 → at result l ≡ bit_xor (at a l) (bit_xor (at b l) (bit_xor (at c l) (bit_xor (at d l) (at e l)))) }
{
    a ^ (b ^ (c ^ (d ^ e)))
}

// A lane turned left by n bits.
fn turned(x: u64x4, n: u64) -> u64x4
    requires positive { 0 < n }
    requires bound { n < 64 }
    ensures { (l : ℕ) → l < 4 → at result l ≡ rotl (at x l) n }
{
    (x << u64x4::splat(n)) | (x >> u64x4::splat(64 - n))
}

// What theta puts into a column: the parity of the column before it, and that of the one after it, turned by one.
fn spread(before: u64x4, after: u64x4) -> u64x4
    ensures { (l : ℕ) → l < 4 → at result l ≡ bit_xor (at before l) (rotl (at after l) 1) }
{
    before ^ turned(after, 1)
}

// A lane after theta and rho.
fn moved(x: u64x4, d: u64x4, n: u64) -> u64x4
    requires positive { 0 < n }
    requires bound { n < 64 }
    ensures { (l : ℕ) → l < 4 → at result l ≡ rotl (bit_xor (at x l) (at d l)) n }
{
    turned(x ^ d, n)
}

// The same of lane 0, which rho leaves as it is.
fn still(x: u64x4, d: u64x4) -> u64x4
    ensures { (l : ℕ) → l < 4 → at result l ≡ rotl (bit_xor (at x l) (at d l)) 0 }
{
    x ^ d
}

// x, with the bits of z flipped in where y has 0.
fn chosen(x: u64x4, y: u64x4, z: u64x4) -> u64x4
    ensures { (l : ℕ) → l < 4 → at result l ≡ bit_xor (at x l) (bit_and (2 ^ 64 - 1 - at y l) (at z l)) }
{
    x ^ (!y & z)
}

// What iota adds is the same in each state.
fn marked(x: u64x4, constant: u64) -> u64x4
    ensures { (l : ℕ) → l < 4 → at result l ≡ bit_xor (at x l) constant }
{
    x ^ u64x4::splat(constant)
}

// A round, row by row: each row of what rho and pi give is used up before the next one is made, which keeps few vectors alive at a time.
fn round_step(a: &[u64x4; 25], constant: u64) -> [u64x4; 25]
    ensures { EachState (round constant) a.now result }
{
    let [
        a0,
        a1,
        a2,
        a3,
        a4,
        a5,
        a6,
        a7,
        a8,
        a9,
        a10,
        a11,
        a12,
        a13,
        a14,
        a15,
        a16,
        a17,
        a18,
        a19,
        a20,
        a21,
        a22,
        a23,
        a24,
    ] = *a;
    let c0 = parity(a0, a5, a10, a15, a20);
    let c1 = parity(a1, a6, a11, a16, a21);
    let c2 = parity(a2, a7, a12, a17, a22);
    let c3 = parity(a3, a8, a13, a18, a23);
    let c4 = parity(a4, a9, a14, a19, a24);
    let d0 = spread(c4, c1);
    let d1 = spread(c0, c2);
    let d2 = spread(c1, c3);
    let d3 = spread(c2, c4);
    let d4 = spread(c3, c0);
    let b0 = still(a0, d0);
    let b1 = moved(a6, d1, 44);
    let b2 = moved(a12, d2, 43);
    let b3 = moved(a18, d3, 21);
    let b4 = moved(a24, d4, 14);
    let e0 = chosen(b0, b1, b2);
    let e1 = chosen(b1, b2, b3);
    let e2 = chosen(b2, b3, b4);
    let e3 = chosen(b3, b4, b0);
    let e4 = chosen(b4, b0, b1);
    let b5 = moved(a3, d3, 28);
    let b6 = moved(a9, d4, 20);
    let b7 = moved(a10, d0, 3);
    let b8 = moved(a16, d1, 45);
    let b9 = moved(a22, d2, 61);
    let e5 = chosen(b5, b6, b7);
    let e6 = chosen(b6, b7, b8);
    let e7 = chosen(b7, b8, b9);
    let e8 = chosen(b8, b9, b5);
    let e9 = chosen(b9, b5, b6);
    let b10 = moved(a1, d1, 1);
    let b11 = moved(a7, d2, 6);
    let b12 = moved(a13, d3, 25);
    let b13 = moved(a19, d4, 8);
    let b14 = moved(a20, d0, 18);
    let e10 = chosen(b10, b11, b12);
    let e11 = chosen(b11, b12, b13);
    let e12 = chosen(b12, b13, b14);
    let e13 = chosen(b13, b14, b10);
    let e14 = chosen(b14, b10, b11);
    let b15 = moved(a4, d4, 27);
    let b16 = moved(a5, d0, 36);
    let b17 = moved(a11, d1, 10);
    let b18 = moved(a17, d2, 15);
    let b19 = moved(a23, d3, 56);
    let e15 = chosen(b15, b16, b17);
    let e16 = chosen(b16, b17, b18);
    let e17 = chosen(b17, b18, b19);
    let e18 = chosen(b18, b19, b15);
    let e19 = chosen(b19, b15, b16);
    let b20 = moved(a2, d2, 62);
    let b21 = moved(a8, d3, 55);
    let b22 = moved(a14, d4, 39);
    let b23 = moved(a15, d0, 41);
    let b24 = moved(a21, d1, 2);
    let e20 = chosen(b20, b21, b22);
    let e21 = chosen(b21, b22, b23);
    let e22 = chosen(b22, b23, b24);
    let e23 = chosen(b23, b24, b20);
    let e24 = chosen(b24, b20, b21);
    [
        marked(e0, constant),
        e1,
        e2,
        e3,
        e4,
        e5,
        e6,
        e7,
        e8,
        e9,
        e10,
        e11,
        e12,
        e13,
        e14,
        e15,
        e16,
        e17,
        e18,
        e19,
        e20,
        e21,
        e22,
        e23,
        e24,
    ]
}

// The permutation of each state. It works on a local, which stays in registers as far as there are any; `lanes` is written once, at the end.
pub fn permute_four(lanes: &mut [u64x4; 25])
    ensures { EachState keccak_f lanes.old lanes.new }
{
    let mut a = *lanes;
    for constant in ROUND_CONSTANTS {
        a = round_step(&a, constant);
    }
    *lanes = a;
}
