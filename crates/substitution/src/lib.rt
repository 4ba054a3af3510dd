// The kernel polynomial of a composite over ℤ/p, for p below 2^28: g₁ times g₂ at n / g₁², cleared of denominators, by Horner's rule in the numerator and the
// denominator. Each product is by rows, and each of its coefficients takes one remainder. Slices hold residues, the constant term first, as in `poly`; one that
// a product replaces has the product's length, with zeros past what it holds at first.
#![tactic(auto)]

ghost use Rattle.std.specs.Prelude.{◌≡◌, ℕ, ◌+◌, ◌-◌, ◌*◌, ◌<◌, ◌≤◌, length, get_or};
ghost use Rattle.ring.specs.Ring.{pow};
ghost use Rattle.slices.specs.Filling.{Filled};
ghost use Rattle.series.specs.Series.{Series, conv, sums, scaled};
ghost use Rattle.zmod.specs.Zmod.{Zmod, mk};
ghost use Rattle.zmod.specs.Residues.{Reduced, poly, Residues};
ghost use Rattle.composition.specs.Substitution.{homogenize};
ghost use Rattle.substitution.specs.Horner.{dropped};

use barrett::Modulus;

// out = c a, with zeros past a's end; no remainder is taken.
fn scale(a: &[u32], c: u32, out: &mut [u64])
    ensures { Filled (λ j v. v ≡ c * get_or a.now j 0) out.new (length out.new) }
{
    for k in 0..out.len() {
        out[k] = field::product(c, poly::word(a, k));
    }
}

// h = acc + a h. A sum of acc has one product at most; e is room.
fn add_times(h: &mut [u32], a: &[u32], e: &mut [u64], acc: &mut [u64], m: Modulus)
    requires reduced { (1 < m.p) × (Reduced m.p h.old) × (Reduced m.p a.now) × ((k : ℕ) → get_or acc.old k 0 ≤ (m.p - 1) * (m.p - 1)) }
    requires lengths { (length a.now ≤ length h.old) × (length a.now ≤ 252) × (length acc.old ≡ length h.old) × (length h.old + 3 ≤ length e.old) }
    ensures { Residues m.p (sums (Zmod m.p) (poly m.p acc.old) (conv (Zmod m.p) (poly m.p a.now) (poly m.p h.old))) h.new }
{
    rows::put_behind(h, e);
    rows::add_product(acc, a, e, m.p);
    m.remainders(acc, h);
}

// h = a h; e and acc are room.
fn multiply(h: &mut [u32], a: &[u32], e: &mut [u64], acc: &mut [u64], m: Modulus)
    requires reduced { (1 < m.p) × (Reduced m.p h.old) × (Reduced m.p a.now) }
    requires lengths { (length a.now ≤ length h.old) × (length a.now ≤ 252) × (length acc.old ≡ length h.old) × (length h.old + 3 ≤ length e.old) }
    ensures { Residues m.p (conv (Zmod m.p) (poly m.p a.now) (poly m.p h.old)) h.new }
{
    acc.fill(0);
    add_times(h, a, e, acc, m);
}

// h = c b + a h
fn multiply_add(
    h: &mut [u32],
    a: &[u32],
    b: &[u32],
    c: u32,
    e: &mut [u64],
    acc: &mut [u64],
    m: Modulus,
)
    requires reduced { (1 < m.p) × (Reduced m.p h.old) × (Reduced m.p a.now) × (Reduced m.p b.now) × (c < m.p) }
    requires lengths { (length a.now ≤ length h.old) × (length a.now ≤ 252) × (length acc.old ≡ length h.old) × (length h.old + 3 ≤ length e.old) }
    ensures { Residues m.p (sums (Zmod m.p) (scaled (Zmod m.p) (mk m.p c) (poly m.p b.now))
        (conv (Zmod m.p) (poly m.p a.now) (poly m.p h.old))) h.new }
{
    scale(b, c, acc);
    add_times(h, a, e, acc, m);
}

// Where Horner's rule begins: h is b + c x at n / g₁², times g₁², for the two topmost coefficients c and b of g₂; e and acc are room.
fn begin(
    h: &mut [u32],
    n: &[u32],
    square: &[u32],
    g2: &[u32],
    e: &mut [u64],
    acc: &mut [u64],
    m: Modulus,
)
    requires reduced { (1 < m.p) × (Reduced m.p n.now) × (Reduced m.p square.now) × (Reduced m.p g2.now) }
    requires lengths { (2 ≤ length g2.now) × (0 < length n.now) × (length n.now ≤ length h.old)
        × (length acc.old ≡ length h.old) × (length h.old + 3 ≤ length e.old) }
    ensures { Residues m.p (homogenize (Zmod m.p) (poly m.p n.now) (poly m.p square.now) 1
        (dropped (Zmod m.p) (length g2.now - 2) (poly m.p g2.now))) h.new }
{
    let d = g2.len() - 1;
    poly::copy(n, h);
    multiply_add(h, &g2[d..], square, g2[d - 1], e, acc, m);
}

// A step of Horner's rule: the denominator takes a factor g₁², and the numerator h becomes n times itself plus c times the new denominator. e and acc are room.
fn step(
    h: &mut [u32],
    den: &mut [u32],
    n: &[u32],
    square: &[u32],
    c: u32,
    e: &mut [u64],
    acc: &mut [u64],
    m: Modulus,
)
    requires reduced { (1 < m.p) × (Reduced m.p h.old) × (Reduced m.p den.old) × (Reduced m.p n.now) × (Reduced m.p square.now) × (c < m.p) }
    requires lengths { (length square.now ≤ length den.old) × (length n.now ≤ length h.old) × (length den.old ≤ length h.old) × (length h.old ≤ 252)
        × (length acc.old ≡ length h.old) × (length h.old + 3 ≤ length e.old) }
    ensures denominator { Residues m.p (conv (Zmod m.p) (poly m.p square.now) (poly m.p den.old)) den.new }
    ensures numerator { Residues m.p (sums (Zmod m.p) (scaled (Zmod m.p) (mk m.p c) (poly m.p den.new))
        (conv (Zmod m.p) (poly m.p n.now) (poly m.p h.old))) h.new }
{
    let d = den.len();
    let r = d + 3;
    multiply(den, square, &mut e[..r], &mut acc[..d], m);
    multiply_add(h, n, den, c, e, acc, m);
}

// h = g₂ at n / g₁², cleared by g₁^(2 d₂), where g₂ has d₂ + 1 words, from the topmost down; den, e and acc are room.
fn horner(
    n: &[u32],
    square: &[u32],
    g2: &[u32],
    h: &mut [u32],
    den: &mut [u32],
    e: &mut [u64],
    acc: &mut [u64],
    m: Modulus,
)
    requires reduced { (1 < m.p) × (Reduced m.p n.now) × (Reduced m.p square.now) × (Reduced m.p g2.now) }
    requires lengths { (0 < length square.now) × (length n.now ≡ length square.now + 1) × (2 ≤ length g2.now)
        × ((length g2.now - 1) * length square.now + 1 ≤ length h.old) × (length h.old ≤ 128) × (length den.old ≡ length h.old)
        × (length acc.old ≡ length h.old) × (length h.old + 3 ≤ length e.old) }
    ensures { Residues m.p (homogenize (Zmod m.p) (poly m.p n.now) (poly m.p square.now)
        (length g2.now - 1) (poly m.p g2.now)) h.new }
{
    begin(h, n, square, g2, e, acc, m);
    poly::copy(square, den);
    let l = square.len();
    let last = g2.len() - 1;
    for t in 1..last {
        let d = (t + 1) * (l - 1) + 1;
        let k = (t + 1) * l + 1;
        let s = k + 3;
        let c = g2[last - 1 - t];
        step(
            &mut h[..k],
            &mut den[..d],
            n,
            square,
            c,
            &mut e[..s],
            &mut acc[..k],
            m,
        );
    }
}

// g₁ times that; square, den, e and acc are room.
fn composite_in(
    n: &[u32],
    g1: &[u32],
    g2: &[u32],
    out: &mut [u32],
    square: &mut [u32],
    den: &mut [u32],
    e: &mut [u64],
    acc: &mut [u64],
    m: Modulus,
)
    requires reduced { (1 < m.p) × (Reduced m.p n.now) × (Reduced m.p g1.now) × (Reduced m.p g2.now) }
    requires in_bounds { (2 ≤ length g1.now) × (2 ≤ length g2.now) × (length n.now ≡ 2 * length g1.now)
        × (length out.old ≡ length g1.now + (length g2.now - 1) * (2 * length g1.now - 1)) × (length out.old ≤ 128) }
    requires square_len { (length square.old + 1 ≡ 2 * length g1.now) × (length den.old ≡ length out.old) × (length e.old ≡ length out.old + 3)
        × (length acc.old ≡ length out.old) }
    ensures { Residues m.p (conv (Zmod m.p) (poly m.p g1.now)
        (homogenize (Zmod m.p) (poly m.p n.now) (pow (Series (Zmod m.p)) (poly m.p g1.now) 2)
        (length g2.now - 1) (poly m.p g2.now))) out.new }
{
    let l = square.len();
    poly::square(g1, e, &mut acc[..l], square, m);
    horner(n, square, g2, out, den, e, acc, m);
    multiply(out, g1, e, acc, m);
}

// g₁ times g₂ at n / g₁², cleared by g₁^(2 d₂), where g₂ has d₂ + 1 words.
pub fn composite(n: &[u32], g1: &[u32], g2: &[u32], out: &mut [u32], m: Modulus)
    requires p_bound { (1 < m.p) × (Reduced m.p n.now) × (Reduced m.p g1.now) × (Reduced m.p g2.now) }
    requires in_bounds { (2 ≤ length g1.now) × (2 ≤ length g2.now) × (length n.now ≡ 2 * length g1.now)
        × (length out.old ≡ length g1.now + (length g2.now - 1) * (2 * length g1.now - 1)) × (length out.old ≤ 128) }
    ensures { Residues m.p (conv (Zmod m.p) (poly m.p g1.now)
        (homogenize (Zmod m.p) (poly m.p n.now) (pow (Series (Zmod m.p)) (poly m.p g1.now) 2)
        (length g2.now - 1) (poly m.p g2.now))) out.new }
{
    let l = n.len() - 1;
    let k = out.len();
    let s = k + 3;
    let mut square = [0u32; 128];
    let mut den = [0u32; 128];
    let mut e = [0u64; 131];
    let mut acc = [0u64; 128];
    composite_in(
        n,
        g1,
        g2,
        out,
        &mut square[..l],
        &mut den[..k],
        &mut e[..s],
        &mut acc[..k],
        m,
    );
}
