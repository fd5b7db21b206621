// Keccak-f[1600]: a state of 25 lanes of 64 bits, lane x, y at place x + 5 y.
//
// Each step takes an array of lanes and gives a new one, written out lane by lane: the compiler then keeps the lanes in registers.
#![tactic(auto)]

ghost use Rattle.std.specs.Prelude.{◌≡◌, ◌+◌, ◌-◌, ◌^◌, ◌<◌};
ghost use Rattle.std.specs.Int.Bits.{bit_xor, bit_and};
ghost use Rattle.standards.specs.Lists.{at};
ghost use Rattle.standards.specs.Fips202.{rotl, theta, rho_offsets, rho, pi, chi, keccak_f};

// By how many bits rho turns each lane.
const RHO: [u32; 25] = [
    0, 1, 62, 28, 27, 36, 44, 6, 55, 20, 3, 10, 43, 25, 39, 41, 45, 15, 21, 8, 18, 2, 61, 56, 14,
];

// What iota adds to lane 0 in each round.
pub const ROUND_CONSTANTS: [u64; 24] = [
    0x0000000000000001,
    0x0000000000008082,
    0x800000000000808a,
    0x8000000080008000,
    0x000000000000808b,
    0x0000000080000001,
    0x8000000080008081,
    0x8000000000008009,
    0x000000000000008a,
    0x0000000000000088,
    0x0000000080008009,
    0x000000008000000a,
    0x000000008000808b,
    0x800000000000008b,
    0x8000000000008089,
    0x8000000000008003,
    0x8000000000008002,
    0x8000000000000080,
    0x000000000000800a,
    0x800000008000000a,
    0x8000000080008081,
    0x8000000000008080,
    0x0000000080000001,
    0x8000000080008008,
];

// A lane turned left by n bits.
#[tactic(auto, using(fips202_laws::proofs::Rotations::rotated))]
fn turned(x: u64, n: u32) -> u64
    requires { n < 64 }
    ensures { result ≡ rotl x n }
{
    x.rotate_left(n)
}

// The parity of a column.
fn column(a: u64, b: u64, c: u64, d: u64, e: u64) -> u64
    ensures { result ≡ bit_xor a (bit_xor b (bit_xor c (bit_xor d e))) }
{
    a ^ (b ^ (c ^ (d ^ e)))
}

#[tactic(auto, unfolding(standards::specs::Lists::from))]
fn theta_step(a: &[u64; 25]) -> [u64; 25]
    ensures { result ≡ theta a.now }
{
    let [
        a0,
        a1,
        a2,
        a3,
        a4,
        a5,
        a6,
        a7,
        a8,
        a9,
        a10,
        a11,
        a12,
        a13,
        a14,
        a15,
        a16,
        a17,
        a18,
        a19,
        a20,
        a21,
        a22,
        a23,
        a24,
    ] = *a;
    let c0 = column(a0, a5, a10, a15, a20);
    let c1 = column(a1, a6, a11, a16, a21);
    let c2 = column(a2, a7, a12, a17, a22);
    let c3 = column(a3, a8, a13, a18, a23);
    let c4 = column(a4, a9, a14, a19, a24);
    let d0 = c4 ^ turned(c1, 1);
    let d1 = c0 ^ turned(c2, 1);
    let d2 = c1 ^ turned(c3, 1);
    let d3 = c2 ^ turned(c4, 1);
    let d4 = c3 ^ turned(c0, 1);
    [
        a0 ^ d0,
        a1 ^ d1,
        a2 ^ d2,
        a3 ^ d3,
        a4 ^ d4,
        a5 ^ d0,
        a6 ^ d1,
        a7 ^ d2,
        a8 ^ d3,
        a9 ^ d4,
        a10 ^ d0,
        a11 ^ d1,
        a12 ^ d2,
        a13 ^ d3,
        a14 ^ d4,
        a15 ^ d0,
        a16 ^ d1,
        a17 ^ d2,
        a18 ^ d3,
        a19 ^ d4,
        a20 ^ d0,
        a21 ^ d1,
        a22 ^ d2,
        a23 ^ d3,
        a24 ^ d4,
    ]
}

// Lane i, turned by its offset.
fn rho_lane(x: u64, i: usize) -> u64
    requires { i < 25 }
    ensures { result ≡ rotl x (at rho_offsets i) }
{
    turned(x, RHO[i])
}

// Rho, and then pi, which only moves lanes.
#[tactic(auto, unfolding(standards::specs::Lists::from))]
fn rho_pi_step(a: &[u64; 25]) -> [u64; 25]
    ensures { result ≡ pi (rho a.now) }
{
    let [
        a0,
        a1,
        a2,
        a3,
        a4,
        a5,
        a6,
        a7,
        a8,
        a9,
        a10,
        a11,
        a12,
        a13,
        a14,
        a15,
        a16,
        a17,
        a18,
        a19,
        a20,
        a21,
        a22,
        a23,
        a24,
    ] = *a;
    [
        rho_lane(a0, 0),
        rho_lane(a6, 6),
        rho_lane(a12, 12),
        rho_lane(a18, 18),
        rho_lane(a24, 24),
        rho_lane(a3, 3),
        rho_lane(a9, 9),
        rho_lane(a10, 10),
        rho_lane(a16, 16),
        rho_lane(a22, 22),
        rho_lane(a1, 1),
        rho_lane(a7, 7),
        rho_lane(a13, 13),
        rho_lane(a19, 19),
        rho_lane(a20, 20),
        rho_lane(a4, 4),
        rho_lane(a5, 5),
        rho_lane(a11, 11),
        rho_lane(a17, 17),
        rho_lane(a23, 23),
        rho_lane(a2, 2),
        rho_lane(a8, 8),
        rho_lane(a14, 14),
        rho_lane(a15, 15),
        rho_lane(a21, 21),
    ]
}

// x, with the bits of z flipped in where y has 0.
fn chosen(x: u64, y: u64, z: u64) -> u64
    ensures { result ≡ bit_xor x (bit_and (2 ^ 64 - 1 - y) z) }
{
    x ^ (!y & z)
}

#[tactic(auto, unfolding(standards::specs::Lists::from))]
fn chi_step(a: &[u64; 25]) -> [u64; 25]
    ensures { result ≡ chi a.now }
{
    let [
        a0,
        a1,
        a2,
        a3,
        a4,
        a5,
        a6,
        a7,
        a8,
        a9,
        a10,
        a11,
        a12,
        a13,
        a14,
        a15,
        a16,
        a17,
        a18,
        a19,
        a20,
        a21,
        a22,
        a23,
        a24,
    ] = *a;
    [
        chosen(a0, a1, a2),
        chosen(a1, a2, a3),
        chosen(a2, a3, a4),
        chosen(a3, a4, a0),
        chosen(a4, a0, a1),
        chosen(a5, a6, a7),
        chosen(a6, a7, a8),
        chosen(a7, a8, a9),
        chosen(a8, a9, a5),
        chosen(a9, a5, a6),
        chosen(a10, a11, a12),
        chosen(a11, a12, a13),
        chosen(a12, a13, a14),
        chosen(a13, a14, a10),
        chosen(a14, a10, a11),
        chosen(a15, a16, a17),
        chosen(a16, a17, a18),
        chosen(a17, a18, a19),
        chosen(a18, a19, a15),
        chosen(a19, a15, a16),
        chosen(a20, a21, a22),
        chosen(a21, a22, a23),
        chosen(a22, a23, a24),
        chosen(a23, a24, a20),
        chosen(a24, a20, a21),
    ]
}

#[tactic(auto, using(fips202_laws::proofs::Constants::constants_are, fips202_laws::proofs::Rounds::rounds_more, fips202_laws::proofs::Rounds::rounds_all))]
pub fn permute(a: &mut [u64; 25])
    ensures { a.new ≡ keccak_f a.old }
{
    for constant in ROUND_CONSTANTS {
        let mut b = chi_step(&rho_pi_step(&theta_step(a)));
        b[0] ^= constant;
        *a = b;
    }
}
