// The auxiliary algorithms of FIPS 204 on rows of 256 numbers: rounding and hints, norms, BitPack and BitUnpack.
#![tactic(auto)]

// The modulus q.
pub const Q: u32 = 8380417;

pub mod encoding;
pub mod gamma2;
pub mod interval;
pub mod norms;
pub mod rounding;
