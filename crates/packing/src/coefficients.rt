// The 256 numbers of a polynomial, read and written eight at a time, whatever the word that holds each.
// Loops go by index: the numbers may be secret, and this form lowers to plain code whose branches and places are known from the counts alone.
ghost use Rattle.std.specs.Prelude.{◌≡◌, ◌+◌, ◌*◌, ◌^◌, ◌<◌, T, ◌++◌, length, take, drop};
ghost use Rattle.standards.specs.Lists.{table, at, all_below};

use words::Word;

// Numbers 8 g to 8 g + 7.
pub fn eight<W: Word>(f: &[W; 256], g: usize) -> [u32; 8]
    requires { g < 32 }
    ensures { result ≡ table 8 (λ i. at (W.numbers f.now) (8 * g + i)) }
{
    let mut x = [0u32; 8];
    for i in 0..8 {
        x[i] = f[8 * g + i].wide();
    }
    x
}

// Puts x in their place.
pub fn set_eight<W: Word>(f: &mut [W; 256], g: usize, x: &[u32; 8])
    requires { (g < 32) × (T (all_below (2 ^ W.bits) x.now)) }
    ensures after { W.numbers f.new ≡ take (8 * g) (W.numbers f.old) ++ (x.now ++ drop (8 * g + 8) (W.numbers f.old)) }
    ensures all { length (W.numbers f.new) ≡ 256 }
{
    for i in 0..8 {
        f[8 * g + i] = W::narrow(x[i]);
    }
}
