// FIPS 202: SHA3-256, SHA3-512, SHAKE128 and SHAKE256.
#![tactic(auto)]

pub mod four;
pub mod functions;
pub mod sponge;
