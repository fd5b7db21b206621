// Machine words that stand for numbers: 16 bits for ML-KEM, 32 for ML-DSA. Code that is one for both schemes is written over this trait.
#![tactic(auto)]

ghost use Rattle.std.specs.Prelude.{◌≡◌, ℕ, ◌^◌, ◌<◌, List, map};
ghost use Rattle.std.proofs.Common.{sym};
ghost use Rattle.std.proofs.lemmas.List.{map-id};

pub trait Word: Copy {
    // the number that a word stands for
    ghost value: { Self → ℕ };

    // the numbers that a list of words stands for
    ghost numbers: { List Self → List ℕ };

    // how many bits a word has
    ghost bits: { ℕ };

    fn wide(self) -> u32
        ensures { result ≡ value self };

    fn narrow(n: u32) -> Self
        requires { n < 2 ^ bits }
        ensures { value result ≡ n };

    // The numbers of a list are those of its words.
    ghost numbers_are: { (xs : List Self) → numbers xs ≡ map value xs };
}

impl Word for u16 {
    ghost value = { λ x. x };

    ghost numbers = { λ xs. xs };

    ghost bits = { 16 };

    ghost numbers_are = { λ xs. sym (map-id xs) };

    fn wide(self) -> u32 {
        u32::from(self)
    }

    fn narrow(n: u32) -> u16 {
        n as u16
    }
}

impl Word for u32 {
    ghost value = { λ x. x };

    ghost numbers = { λ xs. xs };

    ghost bits = { 32 };

    ghost numbers_are = { λ xs. sym (map-id xs) };

    fn wide(self) -> u32 {
        self
    }

    fn narrow(n: u32) -> u32 {
        n
    }
}
