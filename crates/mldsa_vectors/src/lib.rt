// Vectors and matrices over ML-DSA's ring, as slices of rows of 256 numbers below q.
#![tactic(auto)]

pub mod encodings;
pub mod products;
pub mod rounding;
