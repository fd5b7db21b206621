// What signing and verifying hash alike: the message with its context, and the commitment that a challenge is made of.
#![tactic(auto)]

ghost use Rattle.std.specs.Prelude.{◌≡◌, ◌≤◌, ◌++◌, length};
ghost use Rattle.standards.specs.Hashes.{shake256_bytes};
ghost use Rattle.standards.specs.MlDsaParts.{w1_encode, sample_in_ball, ntt as dsa_ntt};
ghost use Rattle.standards.specs.MlDsa.{mu_of};
ghost use Rattle.sets.specs.Sets.{dsa_numbers};

use hash::{Absorb, Hash, Reader, Xof};
use mldsa_sampling::ball::sample_in_ball;
use ring::poly::Poly;
use ring::transform::ntt;
use rows::pack_rows;
use sets::types::DsaSet;

// mu, the message representative: H of tr, a nought, the context's length, the context and the message, which is hashed where it lies.
pub fn message_representative<H: Hash>(tr: &[u8], ctx: &[u8], message: &[u8]) -> [u8; 64]
    requires { length ctx.now ≤ 255 }
    ensures { result ≡ mu_of H.Hash.hashes tr.now ctx.now message.now }
{
    let mut xof = H::open_shake256();
    xof.absorb(tr);
    xof.absorb(&[0, ctx.len() as u8]);
    xof.absorb(ctx);
    xof.absorb(message);
    let mut mu = [0u8; 64];
    xof.finish().squeeze(&mut mu);
    mu
}

// The commitment hash: H of mu and w1Encode of the rows of w1. The room is for eight rows of 6 bits a number, since memory is fixed.
pub fn commitment_hash<H: Hash>(p: DsaSet, mu: &[u8; 64], w1: &[[u32; 256]], c: &mut [u8])
    requires { length w1.now ≡ p.k }
    ensures { c.new ≡ shake256_bytes H.Hash.hashes (mu.now ++ w1_encode (dsa_numbers p) w1.now) (length c.old) }
{
    let width = p.w1_bits();
    let mut room = [0u8; 1536];
    let bytes = &mut room[0..32 * width.bits * w1.len()];
    pack_rows(width, w1, bytes);
    H::shake256_into(mu, bytes, c);
}

// The challenge of a commitment hash, transformed.
pub fn challenge<H: Hash>(p: DsaSet, c: &[u8]) -> Poly<u32>
    ensures { result.c ≡ dsa_ntt (sample_in_ball H.Hash.hashes (dsa_numbers p) c.now) }
{
    let mut f = [0u32; 256];
    sample_in_ball::<H>(p, c, &mut f);
    ntt(&mut f);
    Poly { c: f }
}
