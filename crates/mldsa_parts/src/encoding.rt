// BitPack and BitUnpack of numbers modulo q around 0, and t1 as verification multiplies by it.
// Loops go by index: the numbers may be secret, and this form lowers to plain code that reads the same places whatever they are.
// Bounds of a row's numbers stand in clauses: rows are plain, since one that is lent to be filled may hold anything before.
#![tactic(auto, using(crate::proofs::Numbers::number_loops))]

ghost use Rattle.std.specs.Prelude.{◌≡◌, ◌*◌, ◌%◌, T, length};
ghost use Rattle.standards.specs.Lists.{table, at, all_below};
ghost use Rattle.standards.specs.MlDsaParts.{bit_pack, bit_unpack};

use crate::Q;
use crate::interval::Interval;
use packing::{Width, pack, unpack};
use std::marker::PhantomData;

// Bits of a number of t1.
pub const T1_BITS: Width<u32> = Width {
    bits: 10,
    of: PhantomData,
};

// 256 numbers of d bits, each the interval's top less what is packed, as 32 d bytes.
pub fn bit_pack(interval: Interval, f: &[u32; 256], out: &mut [u8])
    requires long { length out.old ≡ 32 * interval.width.bits }
    requires below { T (all_below 8380417 f.now) }
    ensures { out.new ≡ bit_pack interval.width.bits interval.top f.now }
{
    let mut g = [0u32; 256];
    for i in 0..256 {
        g[i] = (interval.top + (Q - f[i])) % Q;
    }
    pack(interval.width, &g, out);
}

// The way back. What is unpacked has at most 20 bits, so it is below q.
pub fn bit_unpack(interval: Interval, bs: &[u8], f: &mut [u32; 256])
    requires { length bs.now ≡ 32 * interval.width.bits }
    ensures value { f.new ≡ bit_unpack interval.width.bits interval.top bs.now }
    ensures below { T (all_below 8380417 f.new) }
{
    unpack(interval.width, bs, f);
    for i in 0..256 {
        f[i] = (interval.top + (Q - f[i])) % Q;
    }
}

// t1 times 2^13. Numbers of 10 bits: the largest becomes q - 1. They are public; the loop has the one form that serves this file.
pub fn scale_t1(f: &mut [u32; 256])
    requires { T (all_below 1024 f.old) }
    ensures value { f.new ≡ table 256 (λ n. (8192 * at f.old n) % 8380417) }
    ensures below { T (all_below 8380417 f.new) }
{
    for i in 0..256 {
        f[i] *= 8192;
    }
}
