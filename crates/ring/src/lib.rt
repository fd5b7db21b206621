// Numbers modulo q, polynomials and the transforms of ML-KEM and ML-DSA.
#![tactic(auto)]

mod butterfly;
pub mod dsa;
pub mod kem;
mod layer;
pub mod number;
pub mod pointwise;
pub mod poly;
pub mod transform;
