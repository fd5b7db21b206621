// K-PKE.Encrypt and K-PKE.Decrypt.
// Loops go by row: the rows may be secret, and this form lowers to plain code that reads the same places whatever they hold. Rooms are for the
// largest set, and what is lent of them is as long as the set asks: memory is fixed. How long rows, keys and ciphertexts are, and that rows' numbers are
// below q, stands in clauses: some are lent to be read and some to be written, and a type would hold one kind of lending.
ghost use Rattle.std.specs.Prelude.{◌≡◌, ◌+◌, ◌*◌, ◌^◌, ◌≤◌, T, ◌++◌, length};
ghost use Rattle.standards.specs.Lists.{row_at, tables, joined, all_below};
ghost use Rattle.standards.specs.Bytes.{pack};
ghost use Rattle.standards.specs.MlKemParts.{ntt as kem_ntt};
ghost use Rattle.standards.specs.MlKem.{ek_rho, u_in, encrypt as encrypted, decrypt as decrypted};
ghost use Rattle.algebra.specs.RowArrays.{RowsBelow, RowsAre};
ghost use Rattle.sets.specs.Sets.{kem_numbers};
ghost use Rattle.kpke.specs.Matrix.{entry_at, u_row, v_row};

use crate::vectors::{decode_rows, small_poly, small_rows};
use hash::Hash;
use mlkem_parts::encoding::{MESSAGE_BITS, mu};
use mlkem_parts::rounding::{compress, decompress};
use packing::{pack, unpack};
use ring::pointwise::{add, sub};
use ring::transform::{ntt, ntt_inverse};
use rows::pack_rows;
use rows::products::dot;
use sets::types::KemSet;

// The rows of u: column i of the matrix times y, and noise, compressed. A row is made in a room of its own and put in its place once: worked on in
// its place by four calls, it would take as many steps in the loop's proof.
fn u_rows<H: Hash>(p: KemSet, r: &[u8], a: &[[u16; 256]], y: &[[u16; 256]], u: &mut [[u16; 256]])
    requires matrix { p.k * p.k ≤ length a.now }
    requires rows { (length y.now ≡ p.k) × (length u.old ≡ p.k) }
    requires left { RowsBelow 3329 (p.k * p.k) a.now }
    requires right { RowsBelow 3329 p.k y.now }
    ensures { RowsAre p.k (u_row H.Hash.hashes p.k p.eta2.value p.du.bits r.now a.now y.now) u.new }
{
    for i in 0..u.len() {
        let mut f = [0u16; 256];
        dot(a, i, p.k, y, &mut f);
        ntt_inverse(&mut f);
        let mut e = [0u16; 256];
        small_poly::<H>(p.eta2, r, (p.k + i) as u8, &mut e);
        add(&mut f, &e);
        compress(p.du.bits, &mut f);
        u[i] = f;
    }
}

// v: the key's rows times y, noise and the message, compressed.
fn v_poly<H: Hash>(
    p: KemSet,
    r: &[u8],
    t: &[[u16; 256]],
    y: &[[u16; 256]],
    m: &[u8; 32],
    f: &mut [u16; 256],
)
    requires rows { (length t.now ≡ p.k) × (length y.now ≡ p.k) }
    requires left { RowsBelow 3329 p.k t.now }
    requires right { RowsBelow 3329 p.k y.now }
    ensures { f.new ≡ v_row H.Hash.hashes p.k p.eta2.value p.dv.bits r.now t.now y.now m.now }
{
    dot(t, 0, 1, y, f);
    ntt_inverse(f);
    let mut e = [0u16; 256];
    small_poly::<H>(p.eta2, r, (2 * p.k) as u8, &mut e);
    add(f, &e);
    let mut s = [0u16; 256];
    mu(m, &mut s);
    add(f, &s);
    compress(p.dv.bits, f);
}

// The rows of u, and v behind them.
fn write_text(p: KemSet, u: &[[u16; 256]], v: &[u16; 256], text: &mut [u8])
    requires rows { length u.now ≡ p.k }
    requires long { length text.old ≡ 32 * p.du.bits * p.k + 32 * p.dv.bits }
    ensures { text.new ≡ joined (tables p.k (λ i. pack p.du.bits (row_at u.now i))) ++ pack p.dv.bits v.now }
{
    let n = 32 * p.du.bits * p.k;
    pack_rows(p.du, u, &mut text[0..n]);
    pack(p.dv, v, &mut text[n..n + 32 * p.dv.bits]);
}

// The ciphertext of m with coins r, with the matrix of the key drawn already.
pub fn encrypt<H: Hash>(
    p: KemSet,
    a: &[[u16; 256]],
    ek: &[u8],
    m: &[u8; 32],
    r: &[u8],
    text: &mut [u8],
)
    requires matrix { p.k * p.k ≤ length a.now }
    requires entries { RowsAre (p.k * p.k) (entry_at H.Hash.hashes p.k (ek_rho (kem_numbers p) ek.now)) a.now }
    requires below { RowsBelow 3329 (p.k * p.k) a.now }
    requires key { 384 * p.k ≤ length ek.now }
    requires long { length text.old ≡ 32 * p.du.bits * p.k + 32 * p.dv.bits }
    ensures { text.new ≡ encrypted H.Hash.hashes (kem_numbers p) ek.now m.now r.now }
{
    let mut t_room = [[0u16; 256]; 4];
    let t = &mut t_room[0..p.k];
    decode_rows(ek, t);
    let mut y_room = [[0u16; 256]; 4];
    let y = &mut y_room[0..p.k];
    small_rows::<H>(p.eta1, r, y);
    let mut u_room = [[0u16; 256]; 4];
    let u = &mut u_room[0..p.k];
    u_rows::<H>(p, r, a, y, u);
    let mut v = [0u16; 256];
    v_poly::<H>(p, r, t, y, m, &mut v);
    write_text(p, u, &v, text);
}

// A ciphertext's rows of u, transformed. Each is made in a room of its own, as above.
#[tactic(auto, using(algebra::proofs::Packing::below_unpack))]
fn text_rows(p: KemSet, c: &[u8], v: &mut [[u16; 256]])
    requires rows { length v.old ≡ p.k }
    requires long { 32 * p.du.bits * p.k ≤ length c.now }
    ensures value { RowsAre p.k (λ j. kem_ntt (u_in (kem_numbers p) c.now j)) v.new }
    ensures below { RowsBelow 3329 p.k v.new }
{
    let w = 32 * p.du.bits;
    for i in 0..v.len() {
        let mut f = [0u16; 256];
        unpack(p.du, &c[w * i..w * i + w], &mut f);
        decompress(p.du.bits, &mut f);
        ntt(&mut f);
        v[i] = f;
    }
}

// The message of a ciphertext.
#[tactic(auto, using(algebra::proofs::Packing::below_unpack))]
pub fn decrypt(p: KemSet, dk: &[u8], c: &[u8], m: &mut [u8; 32])
    requires key { 384 * p.k ≤ length dk.now }
    requires long { length c.now ≡ 32 * p.du.bits * p.k + 32 * p.dv.bits }
    ensures { m.new ≡ decrypted (kem_numbers p) dk.now c.now }
{
    let mut u_room = [[0u16; 256]; 4];
    let u = &mut u_room[0..p.k];
    text_rows(p, c, u);
    let mut s_room = [[0u16; 256]; 4];
    let s = &mut s_room[0..p.k];
    decode_rows(dk, s);
    let mut f = [0u16; 256];
    dot(s, 0, 1, u, &mut f);
    ntt_inverse(&mut f);
    let mut v = [0u16; 256];
    let n = 32 * p.du.bits * p.k;
    unpack(p.dv, &c[n..n + 32 * p.dv.bits], &mut v);
    decompress(p.dv.bits, &mut v);
    sub(&mut v, &f);
    compress(1, &mut v);
    pack(MESSAGE_BITS, &v, m);
}
