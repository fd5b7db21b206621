// The numbers that BitPack and BitUnpack take: an end and a width, which go together.
ghost use Rattle.std.specs.Prelude.{◌≡◌, ◌<◌, ◌≤◌};
ghost use Rattle.standards.specs.MlDsaParts.{eta_bits, z_bits, gamma1};
ghost use Rattle.sets.specs.Sets.{dsa_numbers};

use packing::Width;
use sets::types::DsaSet;
use std::marker::PhantomData;

// Numbers from top - 2^d + 1 to top modulo q, where d is the width: each is packed as what top exceeds it by, in d bits. Where the standard has
// BitPack(w, a, b), top is b, and the width is that of a + b.
#[derive(Clone, Copy)]
pub struct Interval {
    pub width: Width<u32>,
    pub top: u32,
    pub ghost below: { top < 8380417 },
}

impl Interval {
    // That of s1 and s2, whose numbers are from -eta to eta.
    pub fn of_s(p: DsaSet) -> Interval
        ensures width { result.width.bits ≡ eta_bits (dsa_numbers p) }
        ensures few { result.width.bits ≤ 4 }
        ensures top { result.top ≡ p.eta }
    {
        Interval {
            width: p.eta_bits(),
            top: p.eta as u32,
        }
    }

    // That of t0, whose numbers are above -2^12 and up to 2^12.
    pub fn of_t0() -> Interval
        ensures width { result.width.bits ≡ 13 }
        ensures top { result.top ≡ 4096 }
    {
        Interval {
            width: Width {
                bits: 13,
                of: PhantomData,
            },
            top: 4096,
        }
    }

    // That of z and of the masks, whose numbers are above -gamma1 and up to gamma1.
    pub fn of_z(p: DsaSet) -> Interval
        ensures width { result.width.bits ≡ z_bits (dsa_numbers p) }
        ensures few { result.width.bits ≤ 20 }
        ensures top { result.top ≡ gamma1 (dsa_numbers p) }
    {
        Interval {
            width: p.z_bits(),
            top: p.gamma1(),
        }
    }
}
