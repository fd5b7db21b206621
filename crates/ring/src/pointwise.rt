// Polynomials number by number, in place. Any of the numbers may be a secret: loops go by index, which lowers to plain code that reads the same
// places whatever they are. Each has its own operation and its own clause, so they are a loop each.
// Bounds of a row's numbers stand in clauses: rows are plain, since one that is lent to be filled may hold anything before.
ghost use Rattle.std.specs.Prelude.{◌≡◌, ◌<◌, T, map};
ghost use Rattle.standards.specs.Lists.{all_below};
ghost use Rattle.standards.specs.Ring.{Poly, zero_p, add_p, sub_p};
ghost use Rattle.algebra.specs.Modular.{scaled};

use crate::number::Modular;

// The polynomial 0.
pub fn zero<F: Modular>() -> [F; 256]
    ensures { F.numbers result ≡ zero_p }
{
    [F::narrow(0); 256]
}

// f := f + g
pub fn add<F: Modular>(f: &mut [F; 256], g: &[F; 256])
    requires first { T (all_below F.q (F.numbers f.old)) }
    requires second { T (all_below F.q (F.numbers g.now)) }
    ensures value { F.numbers f.new ≡ add_p F.q (F.numbers f.old) (F.numbers g.now) }
    ensures below { T (all_below F.q (F.numbers f.new)) }
{
    for i in 0..256 {
        f[i] = f[i].add_mod(g[i]);
    }
}

// f := f - g
pub fn sub<F: Modular>(f: &mut [F; 256], g: &[F; 256])
    requires first { T (all_below F.q (F.numbers f.old)) }
    requires second { T (all_below F.q (F.numbers g.now)) }
    ensures value { F.numbers f.new ≡ sub_p F.q (F.numbers f.old) (F.numbers g.now) }
    ensures below { T (all_below F.q (F.numbers f.new)) }
{
    for i in 0..256 {
        f[i] = f[i].sub_mod(g[i]);
    }
}

// f := c f
pub(crate) fn scale<F: Modular>(f: &mut [F; 256], c: F)
    requires factor { F.value c < F.q }
    requires poly { Poly F.q (map F.value f.old) }
    ensures { map F.value f.new ≡ scaled F.q (F.value c) (map F.value f.old) }
{
    for i in 0..256 {
        f[i] = c.mul_mod(f[i]);
    }
}
