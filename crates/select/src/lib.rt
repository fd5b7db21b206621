// Comparing and choosing without a branch: every byte is looked at, and which one is taken is a matter of masks.
// Loops go by index, which lowers to plain code that reads the same places whatever the bytes are.
#![tactic(auto)]

ghost use Rattle.std.specs.Prelude.{◌≡◌, ◌<◌, length, if◌then◌else◌, ◌==◌, nat_eq};
ghost use Rattle.standards.specs.Lists.{same};

// The bits in which a and b differ, over all places: 0 where they are the same.
pub fn differ(a: &[u8], b: &[u8]) -> u8
    requires { length a.now ≡ length b.now }
    ensures { (result == 0) ≡ same a.now b.now }
{
    let mut d = 0u8;
    for i in 0..a.len() {
        d |= a[i] ^ b[i];
    }
    d
}

// 0 for 0, and 255 for any other: d + 255 carries into bit 8 where d is not 0.
fn mask(d: u8) -> u8
    ensures { (d ≡ 0 → result ≡ 0) × (0 < d → result ≡ 255) }
{
    let t = (u16::from(d) + 255) >> 8;
    (t * 255) as u8
}

// a where d is 0, else b.
fn pick(d: u8, a: u8, b: u8) -> u8
    ensures { result ≡ (if nat_eq d 0 then a else b) }
{
    a ^ (mask(d) & (a ^ b))
}

// x stays where d is 0, else it becomes y.
pub fn choose(d: u8, x: &mut [u8; 32], y: &[u8; 32])
    ensures { x.new ≡ (if nat_eq d 0 then x.old else y.now) }
{
    for i in 0..32 {
        x[i] = pick(d, x[i], y[i]);
    }
}
