// The number of a monic polynomial's roots in ℤ/p, for p below 2^28 and a degree d from 1 to 127: the degree of its greatest common divisor with x^p − x.
// Slices hold residues, the constant term first, as in `poly`; a slice for g has d + 1 words, of which the last is 1.
#![tactic(auto)]

ghost use Rattle.std.specs.Prelude.{◌≡◌, ◌+◌, ◌-◌, ◌*◌, ◌≤◌, length};
ghost use Rattle.zmod.specs.Prime.{Prime};
ghost use Rattle.zmod.specs.Residues.{poly};
ghost use Rattle.roots.specs.Rational.{rational_roots};
ghost use Rattle.modulo.specs.Modulo.{Divisor, RemainderOf};
ghost use Rattle.modulo.specs.Power.{x_to};

use barrett::Modulus;

// The number of roots of g, where r is x^p modulo g: the degree of the greatest common divisor of g and r − x. a and b are room, and so is r.
fn from_power(g: &[u32], r: &mut [u32], a: &mut [u64], b: &mut [u64], m: Modulus) -> usize
    requires prime { Prime m.p × (Divisor m.p g.now) × (3 ≤ length g.now) }
    requires r_len { (length r.old + 1 ≡ length g.now) × (length a.old ≡ length g.now) × (length b.old ≡ length r.old)
        × RemainderOf m.p (length g.now - 1) (poly m.p g.now) (x_to m.p m.p) r.old }
    ensures { result ≡ rational_roots m.p (length g.now) (poly m.p g.now) }
{
    r[1] = field::subtract(r[1], 1, m.p);
    rows::widen(g, a);
    rows::widen(r, b);
    euclid::gcd_degree(a, b, m)
}

// The same for any g, with the power by quotients in room of N words a slice, and Euclid's loop in room of K: both lie on the stack at once.
fn by_quotients<const N: usize, const K: usize>(g: &[u32], m: Modulus) -> usize
    requires { Prime m.p × (Divisor m.p g.now) × (3 ≤ length g.now) × (2 * length g.now + 8 ≤ N) × (N ≤ 264) × (length g.now ≤ K) × (K ≤ 128) }
    ensures { result ≡ rational_roots m.p (length g.now) (poly m.p g.now) }
{
    let k = g.len();
    let d = k - 1;
    let mut r = [0u32; K];
    let mut a = [0u64; K];
    let mut b = [0u64; K];
    quotients::power_of_x::<N>(g, &mut r[..d], m);
    from_power(g, &mut r[..d], &mut a[..k], &mut b[..d], m)
}

// The same for small degrees, with the power by a table.
fn by_table(g: &[u32], m: Modulus) -> usize
    requires { Prime m.p × (Divisor m.p g.now) × (3 ≤ length g.now) × (length g.now ≤ 16) }
    ensures { result ≡ rational_roots m.p (length g.now) (poly m.p g.now) }
{
    let k = g.len();
    let d = k - 1;
    let mut r = [0u32; 15];
    let mut a = [0u64; 16];
    let mut b = [0u64; 15];
    folding::power_of_x(g, &mut r[..d], m);
    from_power(g, &mut r[..d], &mut a[..k], &mut b[..d], m)
}

// The same for every degree. One of degree 1 has one root.
fn roots_by_size(g: &[u32], m: Modulus) -> usize
    requires { Prime m.p × (Divisor m.p g.now) × (2 ≤ length g.now) × (length g.now ≤ 128) }
    ensures { result ≡ rational_roots m.p (length g.now) (poly m.p g.now) }
{
    if g.len() == 2 {
        return 1;
    }
    if g.len() <= 16 {
        return by_table(g, m);
    }
    if g.len() <= 40 {
        return by_quotients::<88, 40>(g, m);
    }
    by_quotients::<264, 128>(g, m)
}

// The number of roots of g in ℤ/p.
pub fn roots(g: &[u32], m: Modulus) -> u32
    requires { Prime m.p × (Divisor m.p g.now) × (2 ≤ length g.now) × (length g.now ≤ 128) }
    ensures { result ≡ rational_roots m.p (length g.now) (poly m.p g.now) }
{
    roots_by_size(g, m) as u32
}
