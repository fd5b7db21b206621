// The sampling of FIPS 204, on rows of 256 numbers below q: RejNTTPoly, RejBoundedPoly, SampleInBall, ExpandMask.
#![tactic(auto)]

pub mod ball;
pub mod bounded;
mod drawn;
pub mod mask;
mod read_ahead;
pub mod uniform;
