// Every signature that signing gives passes its check, and an accepted one has one spelling: for any fair hashes and every set. Lemmas, in proofs/.
#![tactic(auto)]

ghost use Rattle.standards.specs.Promises.{SignaturesPass, OneSpelling};
ghost use Rattle.standards.specs.Cases.{DecomposeCases, Power2RoundCases};

// For every seed, message, context and coin, the signature that signing gives is accepted.
pub fn signatures_pass()
    ensures { SignaturesPass }
{}

// What passes the check is, byte for byte, what packing its parts again gives.
pub fn one_spelling()
    ensures { OneSpelling }
{}

// High and low parts about gamma2 = 95,232 and of q - 1, and Power2Round at 4,096 and 4,097.
pub fn rounding_cases()
    ensures { DecomposeCases × Power2RoundCases }
{}
