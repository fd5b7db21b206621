// What follows from the numbers of a set of ML-DSA: widths, bounds and lengths.
// Where a width has two cases, by eta or by gamma2, it is a function of that one number, and no field of its own that a set could have wrong.
ghost use Rattle.std.specs.Prelude.{◌≡◌, ◌-◌, ◌/◌, ◌<◌, ◌≤◌};
ghost use Rattle.standards.specs.MlDsaParts.{eta_bits, z_bits, w1_bits, gamma1 as gamma1_of, beta};
ghost use Rattle.standards.specs.MlDsa.{pk_length, sk_length, sig_length};
ghost use Rattle.sets.specs.Sets.{dsa_numbers};

use crate::types::DsaSet;
use packing::Width;
use std::marker::PhantomData;

impl DsaSet {
    // Bits of a number of s1 and s2, from -eta to eta.
    pub fn eta_bits(self) -> Width<u32>
        ensures value { result.bits ≡ eta_bits (dsa_numbers self) }
        ensures few { result.bits ≤ 4 }
    {
        let bits = if self.eta == 2 { 3 } else { 4 };
        Width {
            bits,
            of: PhantomData,
        }
    }

    // Bits of a number of z, above -gamma1 and up to gamma1.
    pub fn z_bits(self) -> Width<u32>
        ensures value { result.bits ≡ z_bits (dsa_numbers self) }
        ensures few { result.bits ≤ 20 }
    {
        Width {
            bits: self.gamma1_bits + 1,
            of: PhantomData,
        }
    }

    // Bits of a number of w1.
    pub fn w1_bits(self) -> Width<u32>
        ensures value { result.bits ≡ w1_bits (dsa_numbers self) }
        ensures few { result.bits ≤ 6 }
    {
        let bits = if self.gamma2 == 95232 { 6 } else { 4 };
        Width {
            bits,
            of: PhantomData,
        }
    }

    pub fn gamma1(self) -> u32
        ensures value { result ≡ gamma1_of (dsa_numbers self) }
        ensures below { result < 8380417 }
    {
        1 << self.gamma1_bits
    }

    // What the norm of z has to be below: gamma1 - beta.
    pub fn z_bound(self) -> u32
        ensures value { result ≡ gamma1_of (dsa_numbers self) - beta (dsa_numbers self) }
        ensures some { 0 < result }
    {
        self.gamma1() - (self.tau * self.eta) as u32
    }

    // What the norm of the low bits has to be below: gamma2 - beta.
    pub fn low_bound(self) -> u32
        ensures value { result ≡ self.gamma2 - beta (dsa_numbers self) }
        ensures some { 0 < result }
    {
        self.gamma2 - (self.tau * self.eta) as u32
    }

    // Bytes of a commitment hash.
    pub fn c_length(self) -> usize
        ensures value { result ≡ self.lambda / 4 }
        ensures few { result ≤ 64 }
    {
        self.lambda / 4
    }

    // Bytes of a public key.
    pub fn pk_length(self) -> usize
        ensures { result ≡ pk_length (dsa_numbers self) }
    {
        32 + 320 * self.k
    }

    // Bytes of a secret key.
    pub fn sk_length(self) -> usize
        ensures { result ≡ sk_length (dsa_numbers self) }
    {
        128 + 32 * self.eta_bits().bits * (self.l + self.k) + 416 * self.k
    }

    // Bytes of a signature.
    pub fn sig_length(self) -> usize
        ensures { result ≡ sig_length (dsa_numbers self) }
    {
        self.c_length() + 32 * self.z_bits().bits * self.l + self.omega + self.k
    }
}
