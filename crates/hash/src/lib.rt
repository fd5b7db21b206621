// The hashes that the schemes ask for: SHA3-256 and SHA3-512, of fixed length, and SHAKE128 and SHAKE256, without end.
//
// A function is opened, absorbs a message in parts of any length, and is finished. Contracts speak of what is still to come, so none
// counts the bytes that have gone before.
#![tactic(auto)]

ghost use Rattle.std.specs.Prelude.{◌≡◌, ℕ, ◌+◌, List, [], ◌++◌, length};
ghost use Rattle.standards.specs.Lists.{table};
ghost use Rattle.standards.specs.Hashes.{Hashes, Fair, shake256_bytes};
ghost use Rattle.hash.specs.Streams.{later, Four, of_four, later_four, message};

pub mod cuts;
pub mod in_turn;

// Bytes without end. `rest s` is the stream that is still to come.
pub trait Reader {
    ghost rest: { Self → ℕ → ℕ };

    // Fills `out` with the next bytes.
    fn squeeze(&mut self, out: &mut [u8])
        ensures bytes { out.new ≡ table (length out.old) (rest self.old) }
        ensures onward { rest self.new ≡ later (length out.old) (rest self.old) };
}

// A function that takes its message in parts. `stream s m` is what will come out if m is absorbed yet.
pub trait Absorb {
    ghost stream: { Self → List ℕ → ℕ → ℕ };

    fn absorb(&mut self, part: &[u8])
        ensures { (m : List ℕ) → stream self.new m ≡ stream self.old (part.now ++ m) };
}

// One whose bytes go on without end.
pub trait Xof: Absorb + Sized {
    type Output: Reader + Drop;

    fn finish(self) -> Self::Output
        ensures { Self.Output.rest result ≡ Self.stream self [] };
}

// One that gives the stream's first N bytes.
pub trait Digest<const N: usize>: Absorb + Sized {
    fn finish(self) -> [u8; N]
        ensures { result ≡ table N (Self.stream self []) };
}

// Four streams that are read side by side. `rests s` are those that are still to come. Four parts go one by one: an array of slices that are lent
// to be written, each with a lifetime of its own, is not covered by the checker at a call.
pub trait FourReaders {
    ghost rests: { Self → Four };

    // Fills each of four parts of one length with the next bytes of its stream. Whole blocks are what is fast.
    fn squeeze(&mut self, a: &mut [u8], b: &mut [u8], c: &mut [u8], d: &mut [u8])
        requires b_len { length b.old ≡ length a.old }
        requires c_len { length c.old ≡ length a.old }
        requires d_len { length d.old ≡ length a.old }
        ensures first { a.new ≡ table (length a.old) (rests self.old).first }
        ensures second { b.new ≡ table (length a.old) (rests self.old).second }
        ensures third { c.new ≡ table (length a.old) (rests self.old).third }
        ensures fourth { d.new ≡ table (length a.old) (rests self.old).fourth }
        ensures onward { rests self.new ≡ later_four (length a.old) (rests self.old) };
}

// Each of FIPS 202's functions has its name here, so SHAKE128 and SHAKE256 come in pairs; what they share is in `finish_after` and `absorb_all`.
pub trait Hash {
    type Reader128: Reader + Drop;

    type Shake128: Xof<Output = Self::Reader128> + Drop;

    type Reader256: Reader + Drop;

    type Shake256: Xof<Output = Self::Reader256> + Drop;

    type Sha3_256: Digest<32> + Drop;

    type Sha3_512: Digest<64> + Drop;

    type FourShake128: FourReaders + Drop;

    type FourShake256: FourReaders + Drop;

    // Which functions they are.
    ghost hashes: { Hashes };

    fn open_shake128() -> Self::Shake128
        ensures { Self.Shake128.stream result ≡ hashes.shake128 };

    fn open_shake256() -> Self::Shake256
        ensures { Self.Shake256.stream result ≡ hashes.shake256 };

    fn open_sha3_256() -> Self::Sha3_256
        ensures { (m : List ℕ) → table 32 (Self.Sha3_256.stream result m) ≡ hashes.sha3_256 m };

    fn open_sha3_512() -> Self::Sha3_512
        ensures { (m : List ℕ) → table 64 (Self.Sha3_512.stream result m) ≡ hashes.sha3_512 m };

    // Four messages of one length.
    fn four_shake128(a: &[u8], b: &[u8], c: &[u8], d: &[u8]) -> Self::FourShake128
        requires b_len { length b.now ≡ length a.now }
        requires c_len { length c.now ≡ length a.now }
        requires d_len { length d.now ≡ length a.now }
        ensures { Self.FourShake128.rests result ≡ of_four hashes.shake128 a.now b.now c.now d.now };

    fn four_shake256(a: &[u8], b: &[u8], c: &[u8], d: &[u8]) -> Self::FourShake256
        requires b_len { length b.now ≡ length a.now }
        requires c_len { length c.now ≡ length a.now }
        requires d_len { length d.now ≡ length a.now }
        ensures { Self.FourShake256.rests result ≡ of_four hashes.shake256 a.now b.now c.now d.now };

    // A message at once.
    fn sha3_256(m: &[u8]) -> [u8; 32]
        ensures { result ≡ hashes.sha3_256 m.now }
    {
        let mut digest = Self::open_sha3_256();
        digest.absorb(m);
        digest.finish()
    }

    // A message of two parts, of which the second may be empty. Two parameters let the clause say `a ++ b`; an array of parts would end it in `++ []`.
    fn sha3_512(a: &[u8], b: &[u8]) -> [u8; 64]
        ensures { result ≡ hashes.sha3_512 (a.now ++ b.now) }
    {
        let mut digest = Self::open_sha3_512();
        digest.absorb(a);
        digest.absorb(b);
        digest.finish()
    }

    fn shake128(a: &[u8], b: &[u8]) -> Self::Reader128
        ensures { Self.Reader128.rest result ≡ hashes.shake128 (a.now ++ b.now) }
    {
        finish_after(Self::open_shake128(), a, b)
    }

    fn shake256(a: &[u8], b: &[u8]) -> Self::Reader256
        ensures { Self.Reader256.rest result ≡ hashes.shake256 (a.now ++ b.now) }
    {
        finish_after(Self::open_shake256(), a, b)
    }

    fn shake256_into(a: &[u8], b: &[u8], out: &mut [u8])
        ensures { out.new ≡ shake256_bytes hashes (a.now ++ b.now) (length out.old) }
    {
        Self::shake256(a, b).squeeze(out);
    }

    ghost fair: { Fair hashes };
}

// Absorbs two more parts, and ends the message.
fn finish_after<X: Xof>(mut x: X, a: &[u8], b: &[u8]) -> X::Output
    ensures { X.Output.rest result ≡ X.stream x (a.now ++ b.now) }
{
    x.absorb(a);
    x.absorb(b);
    x.finish()
}

// Absorbs the parts one after the other.
pub fn absorb_all<A: Absorb>(x: &mut A, parts: &[&[u8]])
    ensures { (m : List ℕ) → A.stream x.new m ≡ A.stream x.old (message parts.now ++ m) }
{
    for part in parts {
        x.absorb(part);
    }
}
