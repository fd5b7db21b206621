// The hints of a signature, which are rows of noughts and ones: how many ones there are, HintBitPack and HintBitUnpack.
//
// Hints are counted before a signature is kept, so counting has no branch on one, and its loops go by index.
// What is packed or unpacked is public.
#![tactic(auto)]

ghost use Rattle.std.specs.Prelude.{◌≡◌, ◌+◌, ◌≤◌, ◌&&◌, ◌++◌, length, drop, is_ok, OnOk};
ghost use Rattle.standards.specs.Lists.{tables, all_below};
ghost use Rattle.standards.specs.Ring.{zero_p};
ghost use Rattle.standards.specs.MlDsaParts.{places, hint_count, hint_bit_pack};
ghost use Rattle.standards.specs.MlDsa.{sig_length, rising, marked, hints_rise, hint_padding_zero, hint_row};
ghost use Rattle.sets.specs.Sets.{dsa_numbers};

use sets::types::DsaSet;

// The hint part of a signature is none that HintBitPack writes.
#[derive(Clone, Copy, PartialEq, Eq, Debug)]
pub struct Malformed;

fn row_count(row: &[u8; 256]) -> usize
    ensures count { result ≡ length (places 0 row.now) }
    ensures few { result ≤ 256 }
{
    let mut n = 0;
    for i in 0..256 {
        n += usize::from(row[i] != 0);
    }
    n
}

// How many ones there are in the rows of a hint.
pub fn hint_count(hs: &[[u8; 256]]) -> usize
    requires { length hs.now ≤ 8 }
    ensures { result ≡ hint_count hs.now }
{
    let mut n = 0;
    for i in 0..hs.len() {
        n += row_count(&hs[i]);
    }
    n
}

// Writes the places of a row at the front of what is lent: how many there are. The count is kept by hand, since contracts say by it what is written.
fn pack_row(row: &[u8; 256], out: &mut [u8]) -> usize
    requires { length (places 0 row.now) ≤ length out.old }
    ensures count { result ≡ length (places 0 row.now) }
    ensures value { out.new ≡ places 0 row.now ++ drop result out.old }
{
    let mut n = 0;
    for (i, b) in row.iter().enumerate() {
        if *b != 0 {
            out[n] = i as u8;
            n += 1;
        }
    }
    n
}

// HintBitPack: the places of all rows, noughts up to omega, and where each row ends, which is the standard's Index.
pub fn hint_bit_pack(p: DsaSet, hs: &[[u8; 256]], out: &mut [u8])
    requires rows { length hs.now ≡ p.k }
    requires long { length out.old ≡ p.omega + p.k }
    requires few { hint_count hs.now ≤ p.omega }
    ensures { out.new ≡ hint_bit_pack (dsa_numbers p) hs.now }
{
    let omega = p.omega;
    let mut index = 0;
    for (i, row) in hs.iter().enumerate() {
        index += pack_row(row, &mut out[index..omega]);
        out[omega + i] = index as u8;
    }
    out[index..omega].fill(0);
}

fn all_zero(bs: &[u8]) -> bool
    ensures { result ≡ all_below 1 bs.now }
{
    bs.iter().all(|b| *b == 0)
}

fn rises(places: &[u8]) -> bool
    ensures { result ≡ rising places.now }
{
    places.is_sorted_by(|a, b| a < b)
}

// Marks places in a row, if they rise.
fn unpack_row(places: &[u8], row: &mut [u8; 256]) -> Result<(), Malformed>
    ensures good { is_ok result ≡ rising places.now }
    ensures row { OnOk result (row.new ≡ marked places.now zero_p) }
{
    if !rises(places) {
        return Err(Malformed);
    }
    *row = [0u8; 256];
    for x in places {
        row[usize::from(*x)] = 1;
    }
    Ok(())
}

// HintBitUnpack, of a whole signature, if the hint part is as it has to be. If not, nothing is said of the rows. `begin` is the standard's Index: a row's places
// begin where those of the row before ended, and the ends stand behind all places, that of row i at omega + i.
pub fn hint_bit_unpack(p: DsaSet, sig: &[u8], hs: &mut [[u8; 256]]) -> Result<(), Malformed>
    requires long { length sig.now ≡ sig_length (dsa_numbers p) }
    requires rows { length hs.old ≡ p.k }
    ensures good { is_ok result ≡ hints_rise (dsa_numbers p) sig.now p.k && hint_padding_zero (dsa_numbers p) sig.now }
    ensures rows { OnOk result (hs.new ≡ tables p.k (hint_row (dsa_numbers p) sig.now)) }
{
    let part = &sig[p.c_length() + 32 * p.z_bits().bits * p.l..];
    let mut begin = 0;
    for (i, row) in hs.iter_mut().enumerate() {
        let end = usize::from(part[p.omega + i]);
        let places = part[..p.omega].get(begin..end).ok_or(Malformed)?;
        unpack_row(places, row)?;
        begin = end;
    }
    if all_zero(&part[begin..p.omega]) {
        Ok(())
    } else {
        Err(Malformed)
    }
}
