// gamma2, by which the high bits of a number are told from the low ones.
ghost use Rattle.std.specs.Prelude.{◌≡◌};
ghost use Rattle.std.proofs.Props.{props};
ghost use Rattle.sets.specs.Shapes.{gamma2_prop};
ghost use Rattle.mldsa_parts.specs.Gammas.{IsGamma2};

use sets::types::DsaSet;

// One of the two numbers that the sets of ML-DSA have.
#[derive(Clone, Copy)]
pub struct Gamma2 {
    pub value: u32,
    pub ghost is: { IsGamma2 value } by { Prim.hlevel (props, gamma2_prop) },
}

// That of a set.
impl From<DsaSet> for Gamma2 {
    ghost from_gives = { λ p g. g.value ≡ p.gamma2 };

    fn from(p: DsaSet) -> Gamma2 {
        Gamma2 { value: p.gamma2 }
    }
}
