// The permutation and two of the functions as C sees them, for benchmarks.
#![tactic(auto)]

ghost use Rattle.std.specs.Prelude.{◌≡◌, [], length};
ghost use Rattle.standards.specs.Lists.{table};
ghost use Rattle.standards.specs.Fips202.{keccak_f, fips202};

use fips202::functions::Fips202;
use hash::{Hash, Reader};
use keccak::permute;

#[unsafe(no_mangle)]
pub extern "C" fn hash_keccak_f(lanes: &mut [u64; 25])
    ensures { lanes.new ≡ keccak_f lanes.old }
{
    permute(lanes);
}

#[unsafe(no_mangle)]
pub extern "C" fn hash_sha3_256(m: &[u8], out: &mut [u8; 32])
    ensures { out.new ≡ fips202.sha3_256 m.now }
{
    *out = Fips202::sha3_256(m);
}

#[unsafe(no_mangle)]
pub extern "C" fn hash_shake128(m: &[u8], out: &mut [u8])
    ensures { out.new ≡ table (length out.old) (fips202.shake128 m.now) }
{
    Fips202::shake128(m, &[]).squeeze(out);
}
