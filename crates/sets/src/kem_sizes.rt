// What follows from the numbers of a set of ML-KEM: lengths in bytes.
ghost use Rattle.std.specs.Prelude.{◌≡◌, ◌+◌, ◌*◌};
ghost use Rattle.standards.specs.MlKem.{ek_length, dk_length, text_length};
ghost use Rattle.sets.specs.Sets.{kem_numbers};

use crate::types::KemSet;

impl KemSet {
    // Bytes of an encapsulation key.
    pub fn ek_length(self) -> usize
        ensures value { result ≡ ek_length (kem_numbers self) }
        ensures closed { result ≡ 384 * self.k + 32 }
    {
        384 * self.k + 32
    }

    // Bytes of a decapsulation key.
    pub fn dk_length(self) -> usize
        ensures value { result ≡ dk_length (kem_numbers self) }
        ensures closed { result ≡ 768 * self.k + 96 }
    {
        768 * self.k + 96
    }

    // Bytes of a ciphertext.
    pub fn text_length(self) -> usize
        ensures value { result ≡ text_length (kem_numbers self) }
        ensures closed { result ≡ 32 * (self.du.bits * self.k + self.dv.bits) }
    {
        32 * (self.du.bits * self.k + self.dv.bits)
    }
}
