// The auxiliary algorithms of FIPS 203 on rows of 256 numbers: Compress and Decompress, ByteDecode, sampling.
#![tactic(auto)]

// The modulus q.
pub const Q: u16 = 3329;

pub mod encoding;
pub mod noise;
pub mod rounding;
pub mod uniform;
