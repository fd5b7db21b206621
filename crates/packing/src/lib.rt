// Numbers of d bits scattered into bytes and gathered from bytes: ByteEncode and SimpleBitPack, and the ways back.
//
// Eight numbers of d bits are d bytes, so everything goes by eights. The width is a constant in the code that does the work,
// and the compiler unrolls it; the functions here choose the constant, at the widths that the schemes use.
// The loops run over lengths and widths alone: nothing depends on a number's value.
#![tactic(auto)]

ghost use Rattle.std.specs.Prelude.{◌≡◌, ℕ, ◌*◌, ◌≤◌, Bool, false, T, length, MatchResult};
ghost use Rattle.standards.specs.Bytes.{pack, unpack};
ghost use Rattle.packing.specs.Widths.{kem_width, dsa_width, any_width, kem_is_any, dsa_is_any, kem_fits, dsa_fits};

mod coefficients;
mod eights;

use eights::{pack_eights, unpack_eights};
use std::alloc::AllocError;
use std::marker::PhantomData;
use words::Word;

// Words whose numbers are packed: those of 16 bits at ML-KEM's widths, those of 32 at ML-DSA's.
pub trait Packed: Word {
    ghost width: { ℕ → Bool };

    // Whether numbers of d bits are packed.
    fn is_width(d: usize) -> bool
        ensures { result ≡ width d };

    // It is one of the widths there are, and a word has room for it.
    ghost is_any: { (d : ℕ) → T (width d) → T (any_width d) };

    ghost fits: { (d : ℕ) → T (width d) → d ≤ Self.bits };
}

impl Packed for u16 {
    ghost width = { kem_width };

    ghost is_any = { kem_is_any };

    ghost fits = { kem_fits };

    fn is_width(d: usize) -> bool {
        matches!(d, 1 | 4 | 5 | 6 | 10 | 11 | 12)
    }
}

impl Packed for u32 {
    ghost width = { dsa_width };

    ghost is_any = { dsa_is_any };

    ghost fits = { dsa_fits };

    fn is_width(d: usize) -> bool {
        matches!(d, 3 | 4 | 6 | 10 | 13 | 18 | 20)
    }
}

// How many bits a packed number has: one of the widths of the scheme whose words are W. `of` names W, which the fact alone would not, and takes no room.
// A width that is known is written as a literal, where the check finds the fact: a constructor would ask for it by a clause, and a constant can't call one.
pub struct Width<W: Packed> {
    pub bits: usize,
    pub of: PhantomData<W>,
    pub ghost known: { T (W.width bits) },
}

// By hand: a derive, `derive_where` too, is refused for a type with a parameter and a ghost field.
impl<W: Packed> Clone for Width<W> {
    ghost is_clone = { λ x y. y ≡ x };

    ghost is_infallible = { λ _. Unit {0} };

    fn clone(&self) -> Result<Self, AllocError> {
        Ok(*self)
    }
}

impl<W: Packed> Copy for Width<W> {}

// Numbers of that many bits are not packed.
#[derive(Clone, Copy, Debug, PartialEq, Eq)]
pub struct NoWidth;

// The width of n bits, if it is one of the scheme's.
impl<W: Packed> TryFrom<usize> for Width<W> {
    type Error = NoWidth;

    ghost try_from_gives = { λ n r. MatchResult r (λ d. T (W.width n) × (d.bits ≡ n)) (λ _. W.width n ≡ false) };

    fn try_from(n: usize) -> Result<Width<W>, NoWidth> {
        if W::is_width(n) {
            Ok(Width {
                bits: n,
                of: PhantomData,
            })
        } else {
            Err(NoWidth)
        }
    }
}

// 256 numbers as 32 d bytes. What a number has above its d bits is left out.
pub fn pack<W: Packed>(d: Width<W>, f: &[W; 256], out: &mut [u8])
    requires { length out.old ≡ 32 * d.bits }
    ensures { out.new ≡ pack d.bits (W.numbers f.now) }
{
    match d.bits {
        1 => pack_eights::<1, W>(f, out),
        3 => pack_eights::<3, W>(f, out),
        4 => pack_eights::<4, W>(f, out),
        5 => pack_eights::<5, W>(f, out),
        6 => pack_eights::<6, W>(f, out),
        10 => pack_eights::<10, W>(f, out),
        11 => pack_eights::<11, W>(f, out),
        12 => pack_eights::<12, W>(f, out),
        13 => pack_eights::<13, W>(f, out),
        18 => pack_eights::<18, W>(f, out),
        20 => pack_eights::<20, W>(f, out),
        _ => unreachable(),
    }
}

// 256 numbers, each below 2^d, out of 32 d bytes.
pub fn unpack<W: Packed>(d: Width<W>, bs: &[u8], f: &mut [W; 256])
    requires { length bs.now ≡ 32 * d.bits }
    ensures { W.numbers f.new ≡ unpack d.bits 256 bs.now }
{
    match d.bits {
        1 => unpack_eights::<1, W>(bs, f),
        3 => unpack_eights::<3, W>(bs, f),
        4 => unpack_eights::<4, W>(bs, f),
        5 => unpack_eights::<5, W>(bs, f),
        6 => unpack_eights::<6, W>(bs, f),
        10 => unpack_eights::<10, W>(bs, f),
        11 => unpack_eights::<11, W>(bs, f),
        12 => unpack_eights::<12, W>(bs, f),
        13 => unpack_eights::<13, W>(bs, f),
        18 => unpack_eights::<18, W>(bs, f),
        20 => unpack_eights::<20, W>(bs, f),
        _ => unreachable(),
    }
}
