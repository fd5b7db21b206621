// Laws of lists, sums, bits and bytes, and of the transforms: lemmas, in proofs/. The theorems that stand alone are named by the contracts of
// functions that do nothing, so that the check asks for their proofs.
#![tactic(auto)]

ghost use Rattle.standards.specs.Promises.{PackingGoesBothWays, TransformsAreProducts};
ghost use Rattle.standards.specs.Cases.{TransformCases};

// Numbers of d bits to bytes and back, and bytes to numbers and back, at every width d.
pub fn packing_goes_both_ways()
    ensures { PackingGoesBothWays }
{}

// Both transforms go both ways, and the product of transformed polynomials is the ring's product.
pub fn transforms_are_products()
    ensures { TransformsAreProducts }
{}

// ML-KEM's transform of 1, and that of x^255 times that of x.
pub fn transform_cases()
    ensures { TransformCases }
{}
