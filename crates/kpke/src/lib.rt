// K-PKE, the encryption that ML-KEM is made of, over any hashes: one code for the three sets. The matrix is drawn first, by `expand`, since that
// can fail; everything after it is total.
#![tactic(auto)]

pub mod cipher;
pub mod vectors;
