// Laws of FIPS 202: rotations, rounds, blocks that are taken in by bytes and lanes, streams that are read in parts, and that the
// functions are fair. There is no code in this crate.
#![tactic(auto)]
