// ByteDecode of 12 bits, and a message's bits as a polynomial.
// Loops go by index: the numbers may be secret, and this form lowers to plain code that reads the same places whatever they are.
// Bounds of a row's numbers stand in clauses: rows are plain, since one that is lent to be filled may hold anything before.
ghost use Rattle.std.specs.Prelude.{◌≡◌, T, length};
ghost use Rattle.standards.specs.Lists.{all_below};
ghost use Rattle.standards.specs.MlKemParts.{byte_decode12};
ghost use Rattle.standards.specs.MlKem.{mu as mu_of};

use crate::Q;
use crate::rounding::decompress;
use packing::{Width, unpack};
use std::marker::PhantomData;

// Bits of a number of a key.
pub const KEY_BITS: Width<u16> = Width {
    bits: 12,
    of: PhantomData,
};

// Bits of a number of a message.
pub const MESSAGE_BITS: Width<u16> = Width {
    bits: 1,
    of: PhantomData,
};

// Numbers of 12 bits, modulo q.
#[tactic(auto, using(crate::proofs::Decoding::decode_steps))]
pub fn byte_decode_12(bs: &[u8], f: &mut [u16; 256])
    requires { length bs.now ≡ 384 }
    ensures value { f.new ≡ byte_decode12 bs.now }
    ensures below { T (all_below 3329 f.new) }
{
    unpack(KEY_BITS, bs, f);
    for i in 0..256 {
        f[i] %= Q;
    }
}

// Each bit as 0 or 1665, the number farthest from 0.
#[tactic(auto, using(crate::proofs::Decoding::message_steps))]
pub fn mu(m: &[u8; 32], f: &mut [u16; 256])
    ensures value { f.new ≡ mu_of m.now }
    ensures below { T (all_below 3329 f.new) }
{
    unpack(MESSAGE_BITS, m, f);
    decompress(1, f);
}
