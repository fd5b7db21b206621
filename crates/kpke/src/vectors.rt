// Vectors and matrices as slices of plain rows: drawing and decoding.
// Loops go by row: the rows may be secret, and this form lowers to plain code that reads the same places whatever they hold.
// Bounds of a row's numbers stand in clauses: rows are plain, since one that is lent to be filled may hold anything before.
ghost use Rattle.std.specs.Prelude.{◌≡◌, ◌*◌, ◌^◌, ◌≤◌, T, length, OnOk, if◌then◌else◌};
ghost use Rattle.standards.specs.Lists.{all_below};
ghost use Rattle.standards.specs.MlKemParts.{ntt as kem_ntt};
ghost use Rattle.standards.specs.MlKem.{small, key_row, matrix_drawn};
ghost use Rattle.algebra.specs.RowArrays.{RowsBelow, RowsAre};
ghost use Rattle.sets.specs.Sets.{kem_numbers, verdict_of};
ghost use Rattle.kpke.specs.Matrix.{entry_at};

use hash::Hash;
use mlkem_parts::encoding::byte_decode_12;
use mlkem_parts::noise::sample_poly_cbd;
use mlkem_parts::uniform::sample_ntt;
use ring::transform::ntt;
use sets::types::{Eta, KemSet, Refusal};

// Small polynomial number n of a seed: PRF and SamplePolyCBD. The room is for eta 3, since memory is fixed.
pub fn small_poly<H: Hash>(eta: Eta, s: &[u8], n: u8, f: &mut [u16; 256])
    ensures value { f.new ≡ small H.Hash.hashes eta.value s.now n }
    ensures below { T (all_below 3329 f.new) }
{
    let mut room = [0u8; 192];
    let bytes = &mut room[0..64 * eta.value];
    H::shake256_into(s, &[n], bytes);
    sample_poly_cbd(eta, bytes, f);
}

// The first small polynomials of a seed, transformed: as many as v has rows.
#[tactic(auto, using(algebra::proofs::RowArrays::fill_row))]
pub fn small_rows<H: Hash>(eta: Eta, s: &[u8], v: &mut [[u16; 256]])
    requires { length v.old ≤ 256 }
    ensures value { RowsAre (length v.old) (λ j. kem_ntt (small H.Hash.hashes eta.value s.now j)) v.new }
    ensures below { RowsBelow 3329 (length v.old) v.new }
{
    for i in 0..v.len() {
        small_poly::<H>(eta, s, i as u8, &mut v[i]);
        ntt(&mut v[i]);
    }
}

// The first rows of a key: as many as v has.
pub fn decode_rows(key: &[u8], v: &mut [[u16; 256]])
    requires { 384 * length v.old ≤ length key.now }
    ensures value { RowsAre (length v.old) (key_row key.now) v.new }
    ensures below { RowsBelow 3329 (length v.old) v.new }
{
    for i in 0..v.len() {
        byte_decode_12(&key[384 * i..384 * i + 384], &mut v[i]);
    }
}

// The first rows of a, as many as the set's matrix has, in order with stride k. The matrix is public, so the loop walks its rows.
#[tactic(auto, using(algebra::proofs::RowArrays::full_all))]
fn draw_entries<H: Hash>(p: KemSet, rho: &[u8], a: &mut [[u16; 256]]) -> Result<(), Refusal>
    requires { length a.old ≡ p.k * p.k }
    ensures drawn { verdict_of result ≡ (if matrix_drawn H.Hash.hashes (kem_numbers p) rho.now then 0 else 4) }
    ensures value { OnOk result (RowsAre (p.k * p.k) (entry_at H.Hash.hashes p.k rho.now) a.new) }
    ensures below { OnOk result (RowsBelow 3329 (p.k * p.k) a.new) }
{
    for (n, row) in a.iter_mut().enumerate() {
        let entry = [(n % p.k) as u8, (n / p.k) as u8];
        *row = sample_ntt::<H>(rho, &entry).ok_or(Refusal::Draw)?;
    }
    Ok(())
}

// The matrix of rho, row by row with stride k, if every draw is full. If not, nothing is said of a. Rows behind the matrix may be lent too.
pub fn expand<H: Hash>(p: KemSet, rho: &[u8], a: &mut [[u16; 256]]) -> Result<(), Refusal>
    requires { p.k * p.k ≤ length a.old }
    ensures drawn { verdict_of result ≡ (if matrix_drawn H.Hash.hashes (kem_numbers p) rho.now then 0 else 4) }
    ensures value { OnOk result (RowsAre (p.k * p.k) (entry_at H.Hash.hashes p.k rho.now) a.new) }
    ensures below { OnOk result (RowsBelow 3329 (p.k * p.k) a.new) }
{
    draw_entries::<H>(p, rho, &mut a[..p.k * p.k])
}
