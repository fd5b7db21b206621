// ML-KEM.KeyGen for keys of the right length.
// Loops go by row: the rows may be secret, and this form lowers to plain code that reads the same places whatever they hold. Rooms are for the
// largest set, and what is lent of them is as long as the set asks: memory is fixed.
// Bounds of a row's numbers stand in clauses: rows are plain, since one that is lent to be filled may hold anything before.
// How long keys and ciphertexts are stands in clauses: some are lent to be read and some to be written, and a type would hold one kind of lending.
ghost use Rattle.std.specs.Prelude.{◌≡◌, ◌+◌, ◌*◌, ◌≤◌, ◌++◌, length, if◌then◌else◌};
ghost use Rattle.standards.specs.Lists.{row_at, tables, joined};
ghost use Rattle.standards.specs.Bytes.{pack};
ghost use Rattle.standards.specs.Hashes.{Hashes};
ghost use Rattle.standards.specs.MlKem.{matrix_drawn, rho_of, sigma_of, ek_of, dk_of};
ghost use Rattle.algebra.specs.RowArrays.{RowsBelow, RowsAre};
ghost use Rattle.standards.specs.Calls.{after};
ghost use Rattle.sets.specs.Sets.{kem_numbers, verdict_of};
ghost use Rattle.mlkem.specs.PublicRows.{t_row};

use hash::Hash;
use kpke::vectors::{expand, small_poly, small_rows};
use mlkem_parts::encoding::KEY_BITS;
use ring::pointwise::add;
use ring::transform::ntt;
use rows::pack_rows;
use rows::products::dot;
use sets::types::{KemSet, Refusal};

// G of d and the byte k, cut in two.
#[tactic(auto, using(crate::proofs::Halves::second_half))]
fn key_seeds<H: Hash>(p: KemSet, d: &[u8; 32], rho: &mut [u8; 32], sigma: &mut [u8; 32])
    ensures rho { rho.new ≡ rho_of H.Hash.hashes (kem_numbers p) d.now }
    ensures sigma { sigma.new ≡ sigma_of H.Hash.hashes (kem_numbers p) d.now }
{
    let g = H::sha3_512(d, &[p.k as u8]);
    rho.copy_from_slice(&g[0..32]);
    sigma.copy_from_slice(&g[32..64]);
}

// The rows of t = A s + e, all transformed. A row is made in a room of its own and put in its place once, as those of u are.
fn t_rows<H: Hash>(
    p: KemSet,
    sigma: &[u8],
    a: &[[u16; 256]],
    s: &[[u16; 256]],
    t: &mut [[u16; 256]],
)
    requires matrix { p.k * p.k ≤ length a.now }
    requires rows { (length s.now ≡ p.k) × (length t.old ≡ p.k) }
    requires left { RowsBelow 3329 (p.k * p.k) a.now }
    requires right { RowsBelow 3329 p.k s.now }
    ensures { RowsAre p.k (t_row H.Hash.hashes p.k p.eta1.value sigma.now a.now s.now) t.new }
{
    for i in 0..t.len() {
        let mut f = [0u16; 256];
        dot(a, p.k * i, 1, s, &mut f);
        let mut e = [0u16; 256];
        small_poly::<H>(p.eta1, sigma, (p.k + i) as u8, &mut e);
        ntt(&mut e);
        add(&mut f, &e);
        t[i] = f;
    }
}

// Packed rows, and rho behind them.
fn write_ek(t: &[[u16; 256]], rho: &[u8], ek: &mut [u8])
    requires { (length rho.now ≡ 32) × (length ek.old ≡ 384 * length t.now + 32) }
    ensures { ek.new ≡ joined (tables (length t.now) (λ i. pack 12 (row_at t.now i))) ++ rho.now }
{
    let k = t.len();
    pack_rows(KEY_BITS, t, &mut ek[0..384 * k]);
    ek[384 * k..384 * k + 32].copy_from_slice(rho);
}

// Packed rows, the encapsulation key, its hash and z behind them.
fn write_dk<H: Hash>(s: &[[u16; 256]], ek: &[u8], z: &[u8; 32], dk: &mut [u8])
    requires { (length ek.now ≡ 384 * length s.now + 32) × (length dk.old ≡ 768 * length s.now + 96) }
    ensures { dk.new ≡ joined (tables (length s.now) (λ i. pack 12 (row_at s.now i))) ++ (ek.now ++ (H.Hash.hashes.sha3_256 ek.now ++ z.now)) }
{
    let k = s.len();
    let h = H::sha3_256(ek);
    pack_rows(KEY_BITS, s, &mut dk[0..384 * k]);
    dk[384 * k..768 * k + 32].copy_from_slice(ek);
    dk[768 * k + 32..768 * k + 64].copy_from_slice(&h);
    dk[768 * k + 64..768 * k + 96].copy_from_slice(z);
}

// A pair of keys, if every draw is full. If not, nothing is written.
pub fn key_gen<H: Hash>(
    p: KemSet,
    d: &[u8; 32],
    z: &[u8; 32],
    ek: &mut [u8],
    dk: &mut [u8],
) -> Result<(), Refusal>
    requires public { length ek.old ≡ 384 * p.k + 32 }
    requires secret { length dk.old ≡ 768 * p.k + 96 }
    ensures drawn { verdict_of result ≡ (if matrix_drawn H.Hash.hashes (kem_numbers p) (rho_of H.Hash.hashes (kem_numbers p) d.now) then 0 else 4) }
    ensures public { ek.new ≡ after (verdict_of result) (ek_of H.Hash.hashes (kem_numbers p) d.now) ek.old }
    ensures secret { dk.new ≡ after (verdict_of result) (dk_of H.Hash.hashes (kem_numbers p) d.now z.now) dk.old }
{
    let mut rho = [0u8; 32];
    let mut sigma = [0u8; 32];
    key_seeds::<H>(p, d, &mut rho, &mut sigma);
    let mut a_room = [[0u16; 256]; 16];
    let a = &mut a_room[0..p.k * p.k];
    expand::<H>(p, &rho, a)?;
    let mut s_room = [[0u16; 256]; 4];
    let s = &mut s_room[0..p.k];
    small_rows::<H>(p.eta1, &sigma, s);
    let mut t_room = [[0u16; 256]; 4];
    let t = &mut t_room[0..p.k];
    t_rows::<H>(p, &sigma, a, s, t);
    write_ek(t, &rho, ek);
    write_dk::<H>(s, ek, z, dk);
    Ok(())
}
