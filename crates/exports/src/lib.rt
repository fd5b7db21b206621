// The calls of the suite and FIPS 202's functions as C sees them, by the names that the header has. A slice is a pointer and a length; an array of 32
// bytes is a pointer. Each function is one call, with its clauses again. Nothing allocates, and nothing reads or writes a global.
#![tactic(auto)]

ghost use Rattle.std.specs.Prelude.{◌≡◌, length, if◌then◌else◌};
ghost use Rattle.standards.specs.Lists.{table};
ghost use Rattle.standards.specs.Fips202.{fips202};
ghost use Rattle.standards.specs.MlKem.{ek_of, dk_of, encaps_key, encaps_text, decaps};
ghost use Rattle.standards.specs.MlDsa.{pk_of, sk_of};
ghost use Rattle.standards.specs.Calls.{kem_of, dsa_of, kem_keys_verdict, encaps_verdict, decaps_verdict, dsa_keys_verdict, signed, sign_verdict, accepts, after};

use fips202::functions::Fips202;
use hash::{Hash, Reader};
use sets::verdict;
use suite::{Exchange, Signing, Suite};

// ---- ML-KEM: 0, or the number of the first cause of refusal
#[unsafe(no_mangle)]
pub extern "C" fn wattleauger_kem_keys(
    set: u8,
    d: &[u8; 32],
    z: &[u8; 32],
    ek: &mut [u8],
    dk: &mut [u8],
) -> u32
    ensures verdict { result ≡ kem_keys_verdict fips202 set d.now (length ek.old) (length dk.old) }
    ensures public { ek.new ≡ after result (ek_of fips202 (kem_of set) d.now) ek.old }
    ensures secret { dk.new ≡ after result (dk_of fips202 (kem_of set) d.now z.now) dk.old }
{
    verdict(<Suite as Exchange>::keys(set, d, z, ek, dk))
}

#[unsafe(no_mangle)]
pub extern "C" fn wattleauger_kem_encapsulate(
    set: u8,
    ek: &[u8],
    m: &[u8; 32],
    key: &mut [u8; 32],
    text: &mut [u8],
) -> u32
    ensures verdict { result ≡ encaps_verdict fips202 set ek.now (length text.old) }
    ensures key { key.new ≡ after result (encaps_key fips202 ek.now m.now) key.old }
    ensures text { text.new ≡ after result (encaps_text fips202 (kem_of set) ek.now m.now) text.old }
{
    verdict(Suite::encapsulate(set, ek, m, key, text))
}

#[unsafe(no_mangle)]
pub extern "C" fn wattleauger_kem_decapsulate(
    set: u8,
    dk: &[u8],
    text: &[u8],
    key: &mut [u8; 32],
) -> u32
    ensures verdict { result ≡ decaps_verdict fips202 set dk.now text.now }
    ensures key { key.new ≡ after result (decaps fips202 (kem_of set) dk.now text.now) key.old }
{
    verdict(Suite::decapsulate(set, dk, text, key))
}

// ---- ML-DSA: the same, and for verifying 1 or 0
#[unsafe(no_mangle)]
pub extern "C" fn wattleauger_dsa_keys(set: u8, xi: &[u8; 32], pk: &mut [u8], sk: &mut [u8]) -> u32
    ensures verdict { result ≡ dsa_keys_verdict fips202 set xi.now (length pk.old) (length sk.old) }
    ensures public { pk.new ≡ after result (pk_of fips202 (dsa_of set) xi.now) pk.old }
    ensures secret { sk.new ≡ after result (sk_of fips202 (dsa_of set) xi.now) sk.old }
{
    verdict(<Suite as Signing>::keys(set, xi, pk, sk))
}

#[unsafe(no_mangle)]
pub extern "C" fn wattleauger_dsa_sign(
    set: u8,
    sk: &[u8],
    ctx: &[u8],
    message: &[u8],
    coin: &[u8; 32],
    sig: &mut [u8],
) -> u32
    ensures verdict { result ≡ sign_verdict fips202 set sk.now ctx.now message.now coin.now (length sig.old) }
    ensures bytes { sig.new ≡ after result (signed fips202 set sk.now ctx.now message.now coin.now) sig.old }
{
    verdict(Suite::sign(set, sk, ctx, message, coin, sig))
}

#[unsafe(no_mangle)]
pub extern "C" fn wattleauger_dsa_verify(
    set: u8,
    pk: &[u8],
    ctx: &[u8],
    message: &[u8],
    sig: &[u8],
) -> u32
    ensures { result ≡ (if accepts fips202 set pk.now ctx.now message.now sig.now then 1 else 0) }
{
    u32::from(Suite::verify(set, pk, ctx, message, sig))
}

// ---- FIPS 202, a message at once
#[unsafe(no_mangle)]
pub extern "C" fn wattleauger_sha3_256(message: &[u8], out: &mut [u8; 32])
    ensures { out.new ≡ fips202.sha3_256 message.now }
{
    *out = Fips202::sha3_256(message);
}

#[unsafe(no_mangle)]
pub extern "C" fn wattleauger_sha3_512(message: &[u8], out: &mut [u8; 64])
    ensures { out.new ≡ fips202.sha3_512 message.now }
{
    *out = Fips202::sha3_512(message, &[]);
}

#[unsafe(no_mangle)]
pub extern "C" fn wattleauger_shake128(message: &[u8], out: &mut [u8])
    ensures { out.new ≡ table (length out.old) (fips202.shake128 message.now) }
{
    Fips202::shake128(message, &[]).squeeze(out);
}

#[unsafe(no_mangle)]
pub extern "C" fn wattleauger_shake256(message: &[u8], out: &mut [u8])
    ensures { out.new ≡ table (length out.old) (fips202.shake256 message.now) }
{
    Fips202::shake256(message, &[]).squeeze(out);
}
