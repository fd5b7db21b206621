// What is promised of the whole, for all six sets. The functions do nothing: each has a theorem for its contract, and the check asks for its proof.
ghost use Rattle.standards.specs.Promises.{MainPromise};
ghost use Rattle.standards.specs.Cases.{TableOfCases};

// FIPS 202's functions are fair hashes; over any fair hashes exchanges agree, every signature passes, and an accepted one has one spelling; the
// transforms are the ring's product; packing goes both ways.
pub fn main_promise()
    ensures { MainPromise }
{
    fips202::functions::hashes_are_fair();
    mlkem_laws::exchanges_agree();
    mldsa_laws::signatures_pass();
    mldsa_laws::one_spelling();
    algebra::transforms_are_products();
    algebra::packing_goes_both_ways();
}

// The cases at which implementations are known to go wrong.
pub fn cases()
    ensures { TableOfCases }
{
    mlkem_laws::compress_cases();
    algebra::transform_cases();
    mldsa_laws::rounding_cases();
    fips202::functions::digest_cases();
}
