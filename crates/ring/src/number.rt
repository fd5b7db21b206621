// Numbers modulo q, each in one machine word and below q: 3329 in `u16` for ML-KEM, 8380417 in `u32` for ML-DSA.
// All that follows is written once over this trait. A faster way of reducing changes nothing but the bodies here.
ghost use Rattle.std.specs.Prelude.{◌≡◌, ℕ, ◌<◌};
ghost use Rattle.algebra.specs.Modular.{add_m, sub_m, mul_m};
ghost use Rattle.std.proofs.Common.{lit<};

use words::Word;

pub trait Modular: Word {
    // the modulus
    ghost q: { ℕ };

    fn add_mod(self, other: Self) -> Self
        requires { (Self.value self < q) × (Self.value other < q) }
        ensures { Self.value result ≡ add_m q (Self.value self) (Self.value other) };

    fn sub_mod(self, other: Self) -> Self
        requires { (Self.value self < q) × (Self.value other < q) }
        ensures { Self.value result ≡ sub_m q (Self.value self) (Self.value other) };

    fn mul_mod(self, other: Self) -> Self
        requires { (Self.value self < q) × (Self.value other < q) }
        ensures { Self.value result ≡ mul_m q (Self.value self) (Self.value other) };

    ghost positive: { 0 < q };
}

// A sum is below 2 * 3329, which fits 16 bits; a product is below 2^24 and goes through 32. The trait has no arithmetic on words, so each impl
// writes its own: a line for each operation, with its modulus and the wider word that a product goes through.
impl Modular for u16 {
    ghost q = { 3329 };

    ghost positive = { lit< tt };

    fn add_mod(self, other: u16) -> u16 {
        (self + other) % 3329
    }

    fn sub_mod(self, other: u16) -> u16 {
        (self + (3329 - other)) % 3329
    }

    fn mul_mod(self, other: u16) -> u16 {
        (u32::from(self) * u32::from(other) % 3329) as u16
    }
}

// A sum is below 2^24; a product is below 2^46 and goes through 64 bits.
impl Modular for u32 {
    ghost q = { 8380417 };

    ghost positive = { lit< tt };

    fn add_mod(self, other: u32) -> u32 {
        (self + other) % 8380417
    }

    fn sub_mod(self, other: u32) -> u32 {
        (self + (8380417 - other)) % 8380417
    }

    fn mul_mod(self, other: u32) -> u32 {
        (u64::from(self) * u64::from(other) % 8380417) as u32
    }
}
