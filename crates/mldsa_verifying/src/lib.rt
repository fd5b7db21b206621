// ML-DSA.Verify: Verify_internal of a message with its context, over any hashes, one code for the three sets.
// All that is read here is public: what fails a test is answered at once, and loops walk rows. Rooms are for the largest set, and what is lent of them is
// as long as the set asks: memory is fixed.
// How long keys and signatures are stands in clauses: which length refuses a call, and as what, is for the caller to say.
#![tactic(auto)]

ghost use Rattle.std.specs.Prelude.{◌≡◌, ◌-◌, ◌≤◌, length, nat_lt};
ghost use Rattle.standards.specs.Lists.{tables};
ghost use Rattle.standards.specs.Ring.{norms};
ghost use Rattle.standards.specs.MlDsaParts.{gamma1, beta};
ghost use Rattle.standards.specs.MlDsa.{pk_length, sig_length, z_of, verify};
ghost use Rattle.algebra.specs.RowArrays.{RowsBelow};
ghost use Rattle.sets.specs.Sets.{dsa_numbers};
ghost use Rattle.mldsa_verifying.specs.Steps.{is_commitment_hash};

mod approximation;

use approximation::approximate;
use hash::Hash;
use mldsa_challenge::{commitment_hash, message_representative};
use mldsa_hints::hint_bit_unpack;
use mldsa_parts::gamma2::Gamma2;
use mldsa_parts::interval::Interval;
use mldsa_parts::norms::norms_below;
use mldsa_vectors::encodings::bit_unpack_rows;
use mldsa_vectors::products::ntt_rows;
use mldsa_vectors::rounding::use_hint_rows;
use sets::types::DsaSet;

// The rows of z in a signature: whether their norm is below gamma1 - beta, as signing leaves it.
fn unpack_z(p: DsaSet, sig: &[u8], z: &mut [[u32; 256]]) -> bool
    requires long { length sig.now ≡ sig_length (dsa_numbers p) }
    requires rows { length z.old ≡ p.l }
    ensures value { z.new ≡ tables p.l (z_of (dsa_numbers p) sig.now) }
    ensures below { RowsBelow 8380417 p.l z.new }
    ensures short { result ≡ nat_lt (norms 8380417 (tables p.l (z_of (dsa_numbers p) sig.now))) (gamma1 (dsa_numbers p) - beta (dsa_numbers p)) }
{
    bit_unpack_rows(Interval::of_z(p), &sig[p.c_length()..], z);
    norms_below(z, p.z_bound())
}

// Whether c is the commitment hash of the rows of w1 and the message. tr is H of the whole public key.
fn is_commitment_hash<H: Hash>(
    p: DsaSet,
    pk: &[u8],
    ctx: &[u8],
    message: &[u8],
    w1: &[[u32; 256]],
    c: &[u8],
) -> bool
    requires context { length ctx.now ≤ 255 }
    requires rows { length w1.now ≡ p.k }
    ensures { result ≡ is_commitment_hash H.Hash.hashes (dsa_numbers p) pk.now ctx.now message.now w1.now c.now }
{
    let mut tr = [0u8; 64];
    H::shake256_into(pk, &[], &mut tr);
    let mu = message_representative::<H>(&tr, ctx, message);
    let mut room = [0u8; 64];
    let again = &mut room[0..p.c_length()];
    commitment_hash::<H>(p, &mu, w1, again);
    c == again
}

// Whether a signature is one of a message with its context under a public key: the hint is as HintBitPack writes it, z is short, and the commitment hash is that of
// what z, the challenge and the hint give.
pub fn verify<H: Hash>(p: DsaSet, pk: &[u8], ctx: &[u8], message: &[u8], sig: &[u8]) -> bool
    requires key { length pk.now ≡ pk_length (dsa_numbers p) }
    requires context { length ctx.now ≤ 255 }
    requires long { length sig.now ≡ sig_length (dsa_numbers p) }
    ensures { result ≡ verify H.Hash.hashes (dsa_numbers p) pk.now ctx.now message.now sig.now }
{
    let mut hs_room = [[0u8; 256]; 8];
    let hs = &mut hs_room[0..p.k];
    if hint_bit_unpack(p, sig, hs).is_err() {
        return false;
    }
    let mut z_room = [[0u32; 256]; 7];
    let z = &mut z_room[0..p.l];
    if !unpack_z(p, sig, z) {
        return false;
    }
    ntt_rows(z);
    let c = &sig[0..p.c_length()];
    let mut w_room = [[0u32; 256]; 8];
    let w = &mut w_room[0..p.k];
    approximate::<H>(p, pk, c, z, w);
    use_hint_rows(Gamma2::from(p), hs, w);
    is_commitment_hash::<H>(p, pk, ctx, message, w, c)
}
