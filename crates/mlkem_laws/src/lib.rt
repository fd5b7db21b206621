// Both sides of an exchange have one key: for any fair hashes and every set. Lemmas, in proofs/.
#![tactic(auto)]

ghost use Rattle.standards.specs.Promises.{ExchangesAgree};
ghost use Rattle.standards.specs.Cases.{CompressCases};

// Keys have their lengths and pass their checks, and both sides have one key whenever the noise is below a quarter of the modulus.
pub fn exchanges_agree()
    ensures { ExchangesAgree }
{}

// Compress and Decompress at their edges.
pub fn compress_cases()
    ensures { CompressCases }
{}
