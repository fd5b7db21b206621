// The calls by the plain hashes: nothing in either scheme rests on FIPS 202.
use crate::{Exchange, Over, Signing};
use plain::Plain;
use sets::types::{DsaSet, KemSet};
use sets::verdict;
use std::alloc::Global;
use std::process::Abort;
use std::test::Fail;

type Calls = Over<Plain>;

// Both sides of an exchange have one key, a spoiled ciphertext gives another.
fn exchange(rt: &impl Abort, heap: Global, set: u8) -> Result<(), Fail> {
    let p = KemSet::try_from(set)?;
    let mut ek = vec![in heap; 0u8; p.ek_length()]?;
    let mut dk = vec![in heap; 0u8; p.dk_length()]?;
    let mut c = vec![in heap; 0u8; p.text_length()]?;
    let mut sent = [0u8; 32];
    let mut got = [0u8; 32];
    let mut other = [0u8; 32];
    <Calls as Exchange>::keys(
        set,
        &[3; 32],
        &[5; 32],
        ek.as_mut_slice(),
        dk.as_mut_slice(),
    )?;
    Calls::encapsulate(set, ek.as_slice(), &[7; 32], &mut sent, c.as_mut_slice())?;
    Calls::decapsulate(set, dk.as_slice(), c.as_slice(), &mut got)?;
    assert_eq!(rt; got, sent);
    assert!(rt; c.len() > 0);
    c[0] = c[0].wrapping_add(1);
    Calls::decapsulate(set, dk.as_slice(), c.as_slice(), &mut other)?;
    assert_ne!(rt; other, sent);
    Ok(())
}

#[test]
fn exchanges(rt: HostRuntime) -> Result<(), Fail> {
    for set in 1..=3 {
        exchange(&rt, rt.alloc(), set)?;
    }
    Ok(())
}

// A key of noughts but for a first byte of rho that is 255: the first draw gets nothing but 255.
fn refused(rt: &impl Abort, heap: Global, set: u8) -> Result<(), Fail> {
    let p = KemSet::try_from(set)?;
    let mut ek = vec![in heap; 0u8; p.ek_length() - 32]?;
    ek.push(255)?;
    ek.resize(p.ek_length(), 0)?;
    let mut c = vec![in heap; 9u8; p.text_length()]?;
    let mut key = [9u8; 32];
    let n = verdict(Calls::encapsulate(set, ek.as_slice(), &[7; 32], &mut key, c.as_mut_slice()));
    assert_eq!(rt; n, 4);
    assert_eq!(rt; key, [9; 32]);
    assert_eq!(rt; c, vec![in heap; 9u8; p.text_length()]?);
    Ok(())
}

#[test]
fn failed_draws(rt: HostRuntime) -> Result<(), Fail> {
    for set in 1..=3 {
        refused(&rt, rt.alloc(), set)?;
    }
    Ok(())
}

// By these hashes no attempt at signing is good: refused by 6 after all of them, and the lent bytes are as they were. Nor is what they hold a signature.
fn signature(rt: &impl Abort, heap: Global, set: u8) -> Result<(), Fail> {
    let p = DsaSet::try_from(set)?;
    let mut pk = vec![in heap; 0u8; p.pk_length()]?;
    let mut sk = vec![in heap; 0u8; p.sk_length()]?;
    let mut sig = vec![in heap; 9u8; p.sig_length()]?;
    <Calls as Signing>::keys(set, &[3; 32], pk.as_mut_slice(), sk.as_mut_slice())?;
    let n = verdict(Calls::sign(
        set,
        sk.as_slice(),
        b"meter",
        b"a program",
        &[0; 32],
        sig.as_mut_slice(),
    ));
    assert_eq!(rt; n, 6);
    assert_eq!(rt; sig, vec![in heap; 9u8; p.sig_length()]?);
    assert!(rt; !Calls::verify(set, pk.as_slice(), b"meter", b"a program", sig.as_slice()));
    Ok(())
}

#[test]
fn signatures(rt: HostRuntime) -> Result<(), Fail> {
    for set in 1..=3 {
        signature(&rt, rt.alloc(), set)?;
    }
    Ok(())
}
