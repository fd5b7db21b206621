// The numbers of a parameter set, and why a call refuses.
ghost use Rattle.std.specs.Prelude.{◌≤◌};
ghost use Rattle.std.proofs.Props.{props};
ghost use Rattle.sets.specs.Shapes.{KemShape, DsaShape, eta_prop, bits_prop, gamma2_prop};

use packing::Width;

// How many bits are summed for a number of noise, which is from -eta to eta: that many with a plus, and as many with a minus. The sets of ML-KEM
// have 2 and 3.
#[derive(Clone, Copy)]
pub struct Eta {
    pub value: usize,
    pub ghost fits: { (2 ≤ value) × (value ≤ 3) },
}

// The numbers of any set fit the code's arrays and widths: `fits` is proved wherever a set is made.
#[derive(Clone, Copy)]
pub struct KemSet {
    pub k: usize,
    pub eta1: Eta,
    pub eta2: Eta,
    pub du: Width<u16>,
    pub dv: Width<u16>,
    pub ghost fits: { KemShape k du.bits dv.bits },
}

// gamma1 is 2^gamma1_bits.
#[derive(Clone, Copy)]
pub struct DsaSet {
    pub k: usize,
    pub l: usize,
    pub eta: usize,
    pub tau: usize,
    pub lambda: usize,
    pub gamma1_bits: usize,
    pub gamma2: u32,
    pub omega: usize,
    pub ghost fits: { DsaShape k l eta tau lambda gamma1_bits gamma2 omega } by { Prim.hlevel (props, eta_prop, bits_prop, gamma2_prop) },
}

// The numbers are those of the standards' calls.
#[derive(Clone, Copy, PartialEq, Eq, Debug)]
pub enum Refusal {
    NoSet = 1,
    Length = 2,
    Key = 3,
    Draw = 4,
    Context = 5,
    Attempts = 6,
}
