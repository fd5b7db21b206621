// The bytes do not depend on how a message is cut into parts, nor on how they are read.
ghost use Rattle.std.specs.Prelude.{◌≡◌, ℕ, ◌+◌, List, ◌++◌, length};
ghost use Rattle.standards.specs.Lists.{table};
ghost use Rattle.hash.specs.Streams.{message};

use crate::{Digest, Reader, Xof, absorb_all};

// One message, cut in two ways: the bytes of the first are read in two parts, those of the second in one.
pub fn streams_agree<X: Xof>(
    mut x: X,
    mut y: X,
    one: &[&[u8]],
    other: &[&[u8]],
    front: &mut [u8],
    back: &mut [u8],
    all: &mut [u8],
)
    requires x_value { X.stream x ≡ X.stream y }
    requires one_value { message one.now ≡ message other.now }
    requires all_len { length all.old ≡ length front.old + length back.old }
    ensures { all.new ≡ front.new ++ back.new }
{
    absorb_all(&mut x, one);
    absorb_all(&mut y, other);
    let mut reader = x.finish();
    reader.squeeze(front);
    reader.squeeze(back);
    y.finish().squeeze(all);
}

// The same of N bytes: the two may go on differently after them.
pub fn digests_agree<const N: usize, D: Digest<N>>(
    mut d: D,
    mut e: D,
    one: &[&[u8]],
    other: &[&[u8]],
) -> ([u8; N], [u8; N])
    requires d_value { (m : List ℕ) → table N (D.stream d m) ≡ table N (D.stream e m) }
    requires one_value { message one.now ≡ message other.now }
    ensures { result.0 ≡ result.1 }
{
    absorb_all(&mut d, one);
    absorb_all(&mut e, other);
    (d.finish(), e.finish())
}
