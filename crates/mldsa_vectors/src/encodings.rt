// Rows to bytes and back, one row after the other.
// Loops go by row: the rows may be secret, and this form lowers to plain code that reads the same places whatever they hold.
// Each function is one loop around a step with a law of its own.
// Bounds of a row's numbers stand in clauses: rows are plain, since one that is lent to be filled may hold anything before.
#![tactic(auto, using(mldsa_laws::proofs::RowLoops::rows_are))]

ghost use Rattle.std.specs.Prelude.{◌≡◌, ◌*◌, ◌≤◌, length, take, drop};
ghost use Rattle.standards.specs.Lists.{row_at, tables, joined};
ghost use Rattle.standards.specs.MlDsaParts.{bit_pack, bit_unpack};
ghost use Rattle.algebra.specs.RowArrays.{RowsBelow};

use mldsa_parts::encoding::{bit_pack, bit_unpack};
use mldsa_parts::interval::Interval;

// BitUnpack of each row. There may be more bytes behind the last one.
pub fn bit_unpack_rows(interval: Interval, bs: &[u8], v: &mut [[u32; 256]])
    requires { 32 * interval.width.bits * length v.old ≤ length bs.now }
    ensures value { v.new ≡ tables (length v.old) (λ i. bit_unpack interval.width.bits interval.top (take (32 * interval.width.bits) (drop (32 * interval.width.bits * i) bs.now))) }
    ensures below { RowsBelow 8380417 (length v.old) v.new }
{
    let w = 32 * interval.width.bits;
    for i in 0..v.len() {
        bit_unpack(interval, &bs[w * i..w * i + w], &mut v[i]);
    }
}

// BitPack of each row.
pub fn bit_pack_rows(interval: Interval, v: &[[u32; 256]], out: &mut [u8])
    requires rows { RowsBelow 8380417 (length v.now) v.now }
    requires long { length out.old ≡ 32 * interval.width.bits * length v.now }
    ensures { out.new ≡ joined (tables (length v.now) (λ i. bit_pack interval.width.bits interval.top (row_at v.now i))) }
{
    let w = 32 * interval.width.bits;
    for i in 0..v.len() {
        bit_pack(interval, &v[i], &mut out[w * i..w * i + w]);
    }
}
