// The two keys: lent bytes that travel with their set, and what is read from them. Rooms are for the largest set, since memory is fixed.
// Bounds of a row's numbers stand in clauses: rows are plain, since one that is lent to be filled may hold anything before.
// How long keys and ciphertexts are stands in clauses: some are lent to be read and some to be written, and a type would hold one kind of lending.
ghost use Rattle.std.specs.Prelude.{◌≡◌, ◌+◌, ◌*◌, ◌≤◌, length, take, OnOk, IfOk, if◌then◌else◌, nat_eq};
ghost use Rattle.standards.specs.Lists.{same, joined, tables};
ghost use Rattle.standards.specs.Bytes.{pack};
ghost use Rattle.standards.specs.Hashes.{Hashes};
ghost use Rattle.standards.specs.MlKem.{key_row, check_ek, ek_rho, dk_length, matrix_drawn, dk_ek, dk_hash, dk_z, key_and_coins, decaps};
ghost use Rattle.algebra.specs.RowArrays.{RowsBelow, RowsAre};
ghost use Rattle.sets.specs.Sets.{kem_numbers, verdict_of};
ghost use Rattle.kpke.specs.Matrix.{entry_at};

use hash::Hash;
use kpke::cipher::{decrypt, encrypt};
use kpke::vectors::{decode_rows, expand};
use mlkem_parts::encoding::KEY_BITS;
use rows::pack_rows;
use select::{choose, differ};
use sets::types::{KemSet, Refusal};

// Whether the rows of a key, packed again into the room for them, are the same bytes: every number is below q. What is in the room afterwards is of
// no use, so the answer is a `bool`.
fn repacked(p: KemSet, ek: &[u8], room: &mut [u8]) -> bool
    requires { (384 * p.k ≤ length ek.now) × (length room.old ≡ 384 * p.k) }
    ensures { result ≡ same (joined (tables p.k (λ i. pack 12 (key_row ek.now i)))) (take (384 * p.k) ek.now) }
{
    let mut t_room = [[0u16; 256]; 4];
    let t = &mut t_room[0..p.k];
    decode_rows(ek, t);
    pack_rows(KEY_BITS, t, room);
    differ(room, &ek[0..384 * p.k]) == 0
}

// An encapsulation key: bytes of the length of its set. Bytes from outside pass through `new`.
#[derive(Clone, Copy)]
pub struct EncapsulationKey<'a> {
    pub set: KemSet,
    pub bytes: &'a [u8],
    pub ghost long: { length bytes.now ≡ 384 * set.k + 32 },
}

impl<'a> EncapsulationKey<'a> {
    // Checks the length and the numbers.
    pub fn new(set: KemSet, bytes: &'a [u8]) -> Result<Self, Refusal>
        ensures verdict { let v = check_ek (kem_numbers set) bytes.now in verdict_of result ≡ (if nat_eq v 1 then 2 else (if nat_eq v 0 then 0 else 3)) }
        ensures set { IfOk result (λ key. key.set ≡ set) }
        ensures bytes { IfOk result (λ key. key.bytes.now ≡ bytes.now) }
    {
        if bytes.len() != set.ek_length() {
            return Err(Refusal::Length);
        }
        let mut room = [0u8; 1536];
        if !repacked(set, bytes, &mut room[0..384 * set.k]) {
            return Err(Refusal::Key);
        }
        Ok(EncapsulationKey { set, bytes })
    }

    // The seed of the matrix in it.
    fn rho(&self) -> &'a [u8]
        ensures { result.now ≡ ek_rho (kem_numbers self.now.set) self.now.bytes.now }
    {
        &self.bytes[384 * self.set.k..]
    }

    // The matrix of the key, if every draw is full. Rows behind it may be lent too.
    pub fn expand<H: Hash>(&self, a: &mut [[u16; 256]]) -> Result<(), Refusal>
        requires { self.now.set.k * self.now.set.k ≤ length a.old }
        ensures drawn { let p = kem_numbers self.now.set in
            verdict_of result ≡ (if matrix_drawn H.Hash.hashes p (ek_rho p self.now.bytes.now) then 0 else 4) }
        ensures value { let p = kem_numbers self.now.set in
            OnOk result (RowsAre (p.k * p.k) (entry_at H.Hash.hashes p.k (ek_rho p self.now.bytes.now)) a.new) }
        ensures below { let k = self.now.set.k in OnOk result (RowsBelow 3329 (k * k) a.new) }
    {
        expand::<H>(self.set, self.rho(), a)
    }
}

// The shared key and the coins: G of m and the hash of the key.
pub fn key_and_coins<H: Hash>(ek: &[u8], m: &[u8; 32]) -> [u8; 64]
    ensures { result ≡ key_and_coins H.Hash.hashes ek.now m.now }
{
    let h = H::sha3_256(ek);
    H::sha3_512(m, &h)
}

// A decapsulation key: bytes of the length of its set. Bytes from outside pass through `new`.
#[derive(Clone, Copy)]
pub struct DecapsulationKey<'a> {
    pub set: KemSet,
    pub bytes: &'a [u8],
    pub ghost long: { length bytes.now ≡ 768 * set.k + 96 },
}

impl<'a> DecapsulationKey<'a> {
    // Checks the length and the hash.
    pub fn new<H: Hash>(set: KemSet, bytes: &'a [u8]) -> Result<Self, Refusal>
        ensures verdict { let p = kem_numbers set in
            verdict_of result ≡ (if nat_eq (length bytes.now) (dk_length p) then (if same (H.Hash.hashes.sha3_256 (dk_ek p bytes.now)) (dk_hash p bytes.now) then 0 else 3) else 2) }
        ensures set { IfOk result (λ key. key.set ≡ set) }
        ensures bytes { IfOk result (λ key. key.bytes.now ≡ bytes.now) }
    {
        if bytes.len() != set.dk_length() {
            return Err(Refusal::Length);
        }
        let key = DecapsulationKey { set, bytes };
        if !key.same_hash::<H>() {
            return Err(Refusal::Key);
        }
        Ok(key)
    }

    // The encapsulation key in it.
    pub fn encapsulation_key(&self) -> EncapsulationKey<'a>
        ensures set { result.set ≡ self.now.set }
        ensures bytes { result.bytes.now ≡ dk_ek (kem_numbers self.now.set) self.now.bytes.now }
    {
        let k = self.set.k;
        EncapsulationKey {
            set: self.set,
            bytes: &self.bytes[384 * k..384 * k + (384 * k + 32)],
        }
    }

    // The hash in it.
    fn hash(&self) -> &'a [u8]
        ensures value { result.now ≡ dk_hash (kem_numbers self.now.set) self.now.bytes.now }
        ensures long { length result.now ≡ 32 }
    {
        let k = self.set.k;
        &self.bytes[768 * k + 32..768 * k + 32 + 32]
    }

    // The secret in it that a rejected ciphertext's key is made of.
    fn z(&self) -> &'a [u8]
        ensures { result.now ≡ dk_z (kem_numbers self.now.set) self.now.bytes.now }
    {
        &self.bytes[768 * self.set.k + 64..]
    }

    // Whether the hash in it is that of the encapsulation key in it.
    pub fn same_hash<H: Hash>(&self) -> bool
        ensures { let p = kem_numbers self.now.set in
            result ≡ same (H.Hash.hashes.sha3_256 (dk_ek p self.now.bytes.now)) (dk_hash p self.now.bytes.now) }
    {
        let h = H::sha3_256(self.encapsulation_key().bytes);
        differ(&h, self.hash()) == 0
    }

    // The key of a ciphertext, with the matrix drawn already. The ciphertext is made again and compared whole, and the key is chosen by a mask.
    pub fn decapsulate<H: Hash>(&self, a: &[[u16; 256]], c: &[u8], key: &mut [u8; 32])
        requires matrix { self.now.set.k * self.now.set.k ≤ length a.now }
        requires entries { let p = kem_numbers self.now.set in
            RowsAre (p.k * p.k) (entry_at H.Hash.hashes p.k (ek_rho p (dk_ek p self.now.bytes.now))) a.now }
        requires below { let k = self.now.set.k in RowsBelow 3329 (k * k) a.now }
        requires long { let p = self.now.set in length c.now ≡ 32 * p.du.bits * p.k + 32 * p.dv.bits }
        ensures { key.new ≡ decaps H.Hash.hashes (kem_numbers self.now.set) self.now.bytes.now c.now }
    {
        let ek = self.encapsulation_key();
        let mut m = [0u8; 32];
        decrypt(self.set, self.bytes, c, &mut m);
        let g = H::sha3_512(&m, self.hash());
        let mut room = [0u8; 1568];
        let again = &mut room[0..c.len()];
        encrypt::<H>(self.set, a, ek.bytes, &m, &g[32..64], again);
        let mut other = [0u8; 32];
        H::shake256_into(self.z(), c, &mut other);
        key.copy_from_slice(&g[0..32]);
        choose(differ(c, again), key, &other);
    }
}
