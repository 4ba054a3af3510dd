// The sum of the poles of a rational function over ℤ/p, for p below 2^28, from its expansion at infinity, h₁/x + h₂/x² + .. + h_n/xⁿ, where its denominator
// has degree n/2 at most: Euclid's algorithm on xⁿ and h₁ xⁿ⁻¹ + .. + h_n finds the denominator t in lowest terms, and the sum is minus its second coefficient
// over its first. Of the remainders nothing is stored: a coefficient of one is a sum of products of the words of its t with those of h. Nor is anything
// divided before the end: a row is multiplied by a unit, and two coefficients of a remainder are cancelled at once.
#![tactic(auto)]

ghost use Rattle.std.specs.Prelude.{◌≡◌, ℕ, ◌+◌, ◌-◌, ◌/◌, ◌^◌, ◌<◌, ◌≤◌, MatchOption, length, get_or};
ghost use Rattle.series.specs.Series.{zeros, const};
ghost use Rattle.series.specs.Degree.{Below};
ghost use Rattle.zmod.specs.Zmod.{Zmod, mk, minus};
ghost use Rattle.zmod.specs.Prime.{Prime};
ghost use Rattle.zmod.specs.Residues.{Residue, Reduced, poly};
ghost use Rattle.poles.specs.Rows.{combination, Rows};
ghost use Rattle.poles.specs.Words.{correlation, remainder, RowsOf, cancelling};
ghost use Rattle.poles.specs.Steps.{Sized, Highest};
ghost use Rattle.poles.specs.Poles.{Running, Stepped, QuotientOf, PolesOf};

use barrett::Modulus;

// The highest coefficient of a remainder, and where it stands.
#[derive(Clone, Copy)]
struct Term {
    degree: usize,
    top: u64,
}

// The degree of a remainder, its highest coefficient and the next one.
#[derive(Clone, Copy)]
struct Row {
    degree: usize,
    top: u64,
    next: u64,
}

// The sum of t[i] h[i], over all words of t.
fn dot(t: &[u64], h: &[u32]) -> u64
    requires t_in_bounds { (length t.now ≤ length h.now) × (length t.now ≤ 256) }
    requires reduced { (Reduced (2 ^ 28) t.now) × (Reduced (2 ^ 28) h.now) }
    ensures { (p : ℕ) → mk p result ≡ correlation p t.now h.now (length t.now) }
{
    let mut s = 0;
    for i in 0..t.len() {
        s += barrett::product(t[i], u64::from(h[i]));
    }
    s
}

// The coefficient of xⁱ in the remainder of the first `len` words of t, which are all that are not 0; from = n − i.
fn coefficient(t: &[u64], len: usize, h: &[u32], from: usize, p: u32) -> u64
    requires p_nonzero { (0 < p) × (p ≤ 2 ^ 28) × (len ≤ length t.now) × (len ≤ 256) × (1 ≤ len) × (from + len ≤ length h.now) }
    requires reduced { (Reduced p t.now) × (Reduced p h.now) × Below (Zmod p) len (poly p t.now) }
    ensures { Residue p (remainder p h.now t.now (length h.now - 1 - from)) result }
{
    let sum = dot(&t[..len], &h[from..]);
    u64::from(field::reduce(sum, p))
}

// t = c t + (y x + z) xˢ u, where `len` words hold all of it.
fn combine(t: &mut [u64], u: &[u64], len: usize, s: usize, c: u64, y: u64, z: u64, m: Modulus)
    requires lt_p { (c < m.p) × (y < m.p) × (z < m.p) × (s < len) × (len ≤ length t.old) × (len ≤ length u.now) }
    requires reduced { (Reduced m.p t.old) × (Reduced m.p u.now) }
    requires below { (Below (Zmod m.p) len (poly m.p t.old)) × (Below (Zmod m.p) (len - s) (poly m.p u.now)) }
    requires below_2 { Below (Zmod m.p) len
        (combination (Zmod m.p) s (mk m.p c) (mk m.p y) (mk m.p z) (poly m.p t.old) (poly m.p u.now)) }
    ensures { (Reduced m.p t.new) × (poly m.p t.new
        ≡ combination (Zmod m.p) s (mk m.p c) (mk m.p y) (mk m.p z) (poly m.p t.old) (poly m.p u.now)) }
{
    let n = len - s;
    euclid::add_multiple(&mut t[..len], &u[..n], c, y, z, m);
}

// Where u's remainder, of which `below` is, has a degree one less than t's, the two highest coefficients of the latter are cancelled.
fn cancel_two(t: &mut [u64], u: &[u64], len: usize, row: Row, below: Row, m: Modulus)
    requires lt_p { (row.top < m.p) × (row.next < m.p) × (below.top < m.p) × (below.next < m.p) × (0 < len) × (len ≤ length t.old) × (len ≤ length u.now) }
    requires reduced { (Reduced m.p t.old) × (Reduced m.p u.now) }
    requires below { (Below (Zmod m.p) len (poly m.p t.old)) × (Below (Zmod m.p) (len - 1) (poly m.p u.now)) }
    ensures { (Reduced m.p t.new)
        × (poly m.p t.new ≡ cancelling m.p row.top row.next below.top below.next (poly m.p t.old) (poly m.p u.now)) }
{
    let c = euclid::multiply(below.top, below.top, m);
    let y = euclid::multiply(euclid::negate(row.top, m.p), below.top, m);
    let opposite = euclid::negate(row.next, m.p);
    let z = euclid::two_products(row.top, below.next, opposite, below.top, m);
    combine(t, u, len, 0, c, y, z, m);
}

// The highest coefficient of u's remainder below xᵏ that is not 0, of those from x^(n/2) on, if there is one. u has n − k + 1 words that may not be 0.
fn highest(h: &[u32], u: &[u64], k: usize, p: u32) -> Option<Term>
    requires p_nonzero { (0 < p) × (p ≤ 2 ^ 28) × Sized h.now u.now k }
    requires reduced { (Reduced p h.now) × (Reduced p u.now) × Below (Zmod p) (length h.now - k) (poly p u.now) }
    ensures { MatchOption result (Highest p h.now u.now k ((length h.now - 1) / 2) 0)
        (λ term. (0 < term.top) × Highest p h.now u.now k term.degree term.top) }
{
    let n = h.len() - 1;
    let a = n / 2;
    let len = h.len() - k;
    for i in (a..k).rev() {
        let c = coefficient(u, len, h, n - i, p);
        if c != 0 {
            return Some(Term { degree: i, top: c });
        }
    }
    None
}

// t = b t − w xˢ u, where `len` words hold it.
fn cancel(t: &mut [u64], u: &[u64], len: usize, s: usize, b: u64, w: u64, m: Modulus)
    requires lt_p { (b < m.p) × (w < m.p) × (s < len) × (len ≤ length t.old) × (len ≤ length u.now) }
    requires reduced { (Reduced m.p t.old) × (Reduced m.p u.now) }
    requires below { (Below (Zmod m.p) len (poly m.p t.old)) × (Below (Zmod m.p) (len - s) (poly m.p u.now)) }
    ensures { (Reduced m.p t.new) × (Below (Zmod m.p) len (poly m.p t.new))
        × (poly m.p t.new ≡ combination (Zmod m.p) s (mk m.p b) (mk m.p 0) (minus m.p (mk m.p w))
        (poly m.p t.old) (poly m.p u.now)) }
{
    combine(t, u, len, s, b, 0, euclid::negate(w, m.p), m);
}

// Where u's remainder has a degree that is lower than t's by more than one, one coefficient of the latter is cancelled after the other.
fn divide(h: &[u32], t: &mut [u64], u: &[u64], row: Row, below: Row, m: Modulus)
    requires prime { Prime m.p × Sized h.now t.old below.degree × Sized h.now u.now row.degree × (below.degree < row.degree)
        × (row.top < m.p) × (0 < below.top) × (below.top < m.p) }
    requires reduced { (Reduced m.p h.now) × (Reduced m.p t.old) × (Reduced m.p u.now) × (length t.old ≡ length u.now) }
    requires highest { Highest m.p h.now u.now row.degree below.degree below.top }
    requires below { (Below (Zmod m.p) (length h.now - below.degree) (poly m.p t.old))
        × (Below (Zmod m.p) (length h.now - row.degree) (poly m.p u.now)) }
    ensures { (Reduced m.p t.new) × ((next : ℕ) → RowsOf m.p h.now row.degree row.top next t.old u.now
        → Rows (Zmod m.p) (length h.now - 1) (poly m.p h.now) below.degree (mk m.p below.top)
        (remainder m.p h.now u.now (below.degree - 1)) (poly m.p u.now) (poly m.p t.new)) }
{
    let n = h.len() - 1;
    let l = below.degree;
    let len = h.len() - l;
    let mut w = row.top;
    for i in (l..row.degree).rev() {
        cancel(t, u, len, i + 1 - l, below.top, w, m);
        w = coefficient(t, len, h, n - i, m.p);
    }
    cancel(t, u, len, 0, below.top, w, m);
}

// A step: the row of t is divided by that of u, and both have changed places then. Where u's remainder has no coefficient from x^(n/2) on, nothing is done.
fn step(h: &[u32], t: &mut [u64], u: &[u64], row: Row, m: Modulus) -> Option<Row>
    requires prime { Prime m.p }
    requires running { Running m.p h.now t.old u.now row.degree row.top row.next }
    ensures { MatchOption result (Stepped m.p h.now t.old u.now t.new row.degree row.degree 0 0)
        (λ made. (0 < made.top) × Stepped m.p h.now t.old u.now t.new row.degree made.degree made.top made.next) }
{
    let first = highest(h, u, row.degree, m.p)?;
    let next = coefficient(u, h.len() - row.degree, h, h.len() - first.degree, m.p);
    let below = Row {
        degree: first.degree,
        top: first.top,
        next,
    };
    if below.degree + 1 == row.degree {
        cancel_two(t, u, h.len() - below.degree, row, below, m);
    } else {
        divide(h, t, u, row, below, m);
    }
    Some(below)
}

// The rows to begin with: 0, whose remainder is xⁿ, and 1.
fn begin(t: &mut [u64], u: &mut [u64])
    requires { 1 ≤ length u.old }
    ensures { (p : ℕ) → 1 < p → (Reduced p t.new) × (Reduced p u.new) × (poly p t.new ≡ zeros (Zmod p))
        × (poly p u.new ≡ const (Zmod p) (mk p 1)) }
{
    t.fill(0);
    u.fill(0);
    u[0] = 1;
}

// Minus the second coefficient over the first, if u has the degree that its words allow: n − k, where k is the degree of the remainder before u's.
fn quotient(u: &[u64], k: usize, p: u32) -> Option<u32>
    requires prime { Prime p × (p ≤ 2 ^ 28) × (2 ≤ length u.now) × (Reduced p u.now) }
    requires nonzero { k ≡ length u.now - 1 → 0 < get_or u.now (length u.now - 1) 0 }
    ensures { QuotientOf p u.now k result }
{
    let a = u.len() - 1;
    if k != a {
        return None;
    }
    let inverse = field::inverse_by_euclid(u[a] as u32, p);
    let second = field::negate(u[a - 1] as u32, p);
    Some(field::multiply(second, inverse, p))
}

// The sum of the poles, each as often as it counts, if there are n/2 of them; fewer have no sum here. h₀ = 0 and h has n + 1 words; t and u are room for
// rows, of n/2 + 1 words. The rows change places with each step.
pub fn sum_of_poles(h: &[u32], t: &mut [u64], u: &mut [u64], m: Modulus) -> Option<u32>
    requires prime { Prime m.p × (Sized h.now u.old (length h.now - 1)) × (length t.old ≡ length u.old) }
    requires reduced { (Reduced m.p h.now) × (get_or h.now 0 0 ≡ 0) }
    ensures { PolesOf m.p h.now result }
{
    begin(t, u);
    let mut row = Row {
        degree: h.len() - 1,
        top: 1,
        next: 0,
    };
    while let Some(other) = step(h, t, u, row, m) {
        match step(h, u, t, other, m) {
            Some(next) => row = next,
            None => return quotient(t, other.degree, m.p),
        }
    }
    quotient(u, row.degree, m.p)
}
