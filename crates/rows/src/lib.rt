// Vectors as slices of rows, what is one for both schemes.
// Loops go by row: the rows may be secret, and this form lowers to plain code that reads the same places whatever they hold.
#![tactic(auto)]

ghost use Rattle.std.specs.Prelude.{◌≡◌, ◌*◌, [], length, get_or};
ghost use Rattle.standards.specs.Lists.{tables, joined};
ghost use Rattle.standards.specs.Bytes.{pack};

pub mod products;

use packing::{Packed, Width, pack};

// ByteEncode and SimpleBitPack of each row: the rows one after the other, d bits for each number.
#[tactic(auto, using(crate::proofs::PackedRows::packed_none))]
pub fn pack_rows<W: Packed>(d: Width<W>, v: &[[W; 256]], out: &mut [u8])
    requires { length out.old ≡ 32 * d.bits * length v.now }
    ensures { out.new ≡ joined (tables (length v.now) (λ i. pack d.bits (W.numbers (get_or v.now i [])))) }
{
    let w = 32 * d.bits;
    for i in 0..v.len() {
        pack(d, &v[i], &mut out[w * i..w * i + w]);
    }
}
