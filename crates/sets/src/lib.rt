// Parameter sets by number, and refusals by number.
#![tactic(auto)]

ghost use Rattle.std.specs.Prelude.{◌≡◌, ◌-◌, if◌then◌else◌, MatchResult, slice_get};
ghost use Rattle.standards.specs.Calls.{is_set, kem_of, dsa_of};
ghost use Rattle.sets.specs.Sets.{kem_numbers, dsa_numbers, number_of, verdict_of, GivesSet};

pub mod dsa_sizes;
pub mod kem_sizes;
pub mod types;

use packing::Width;
use std::marker::PhantomData;
use types::{DsaSet, Eta, KemSet, Refusal};

// ML-KEM-512, -768 and -1024.
const KEM_SETS: [KemSet; 3] = [
    KemSet {
        k: 2,
        eta1: Eta { value: 3 },
        eta2: Eta { value: 2 },
        du: Width {
            bits: 10,
            of: PhantomData,
        },
        dv: Width {
            bits: 4,
            of: PhantomData,
        },
    },
    KemSet {
        k: 3,
        eta1: Eta { value: 2 },
        eta2: Eta { value: 2 },
        du: Width {
            bits: 10,
            of: PhantomData,
        },
        dv: Width {
            bits: 4,
            of: PhantomData,
        },
    },
    KemSet {
        k: 4,
        eta1: Eta { value: 2 },
        eta2: Eta { value: 2 },
        du: Width {
            bits: 11,
            of: PhantomData,
        },
        dv: Width {
            bits: 5,
            of: PhantomData,
        },
    },
];

// The set of ML-KEM with a number from 1 to 3.
impl TryFrom<u8> for KemSet {
    type Error = Refusal;

    ghost try_from_gives = { λ n r. GivesSet (λ p. kem_numbers p ≡ kem_of n) n r };

    fn try_from(n: u8) -> Result<KemSet, Refusal> {
        numbered(&KEM_SETS, n)
    }
}

// ML-DSA-44, -65 and -87.
const DSA_SETS: [DsaSet; 3] = [
    DsaSet {
        k: 4,
        l: 4,
        eta: 2,
        tau: 39,
        lambda: 128,
        gamma1_bits: 17,
        gamma2: 95232,
        omega: 80,
    },
    DsaSet {
        k: 6,
        l: 5,
        eta: 4,
        tau: 49,
        lambda: 192,
        gamma1_bits: 19,
        gamma2: 261888,
        omega: 55,
    },
    DsaSet {
        k: 8,
        l: 7,
        eta: 2,
        tau: 60,
        lambda: 256,
        gamma1_bits: 19,
        gamma2: 261888,
        omega: 75,
    },
];

// The set of ML-DSA with a number from 1 to 3.
impl TryFrom<u8> for DsaSet {
    type Error = Refusal;

    ghost try_from_gives = { λ n r. GivesSet (λ p. dsa_numbers p ≡ dsa_of n) n r };

    fn try_from(n: u8) -> Result<DsaSet, Refusal> {
        numbered(&DSA_SETS, n)
    }
}

// Entry n of a table of sets, counted from 1.
fn numbered<T: Copy>(sets: &[T; 3], n: u8) -> Result<T, Refusal>
    ensures { GivesSet (λ p. slice_get sets.now (n - 1) ≡ Some p) n result }
{
    match n {
        1..=3 => Ok(sets[usize::from(n) - 1]),
        _ => Err(Refusal::NoSet),
    }
}

// A refusal's number.
impl From<Refusal> for u32 {
    ghost from_gives = { λ r n. n ≡ number_of r };

    fn from(r: Refusal) -> u32 {
        r as u32
    }
}

// A call's answer: 0, or the refusal's number.
pub fn verdict(r: Result<(), Refusal>) -> u32
    ensures { result ≡ verdict_of r }
{
    match r {
        Ok(()) => 0,
        Err(e) => u32::from(e),
    }
}
