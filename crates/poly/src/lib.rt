// Polynomials over ℤ/p in lent slices of u32, the constant term first, for p up to 2^28. A slice `xs` of residues stands for the polynomial
// `poly p xs`. A function that fills `out` gives it the residues of the first coefficients of the polynomial that its contract names, as many as
// `out` has words: a longer `out` ends in zeros, a shorter one holds the front.
#![tactic(auto)]

ghost use Rattle.std.specs.Prelude.{◌≡◌, ◌↔◌, true, ℕ, ◌+◌, ◌-◌, ◌*◌, ◌^◌, ◌<◌, ◌≤◌, max, length, get_or};
ghost use Rattle.series.specs.Series.{conv, sums, negs, scaled, ∂};
ghost use Rattle.zmod.specs.Zmod.{Zmod, mk, plus, times};
ghost use Rattle.zmod.specs.Residues.{Residue, Reduced, poly, Residues};
ghost use Rattle.rows.specs.Room.{turns};
ghost use Rattle.poly.specs.Partial.{partial, Alone};

use barrett::Modulus;
pub use rows::word;

// The sum of a[i] * b[k - i] over i from `from` up to `to`: at most 256 products, which a u64 holds.
fn dot(a: &[u32], b: &[u32], from: usize, to: usize, k: usize) -> u64
    requires from_le_to { (from ≤ to) × (to ≤ from + 256) }
    requires to_bound { (to ≤ max from (length a.now)) × (to ≤ k + 1) × (k < from + length b.now) }
    requires reduced { (Reduced (2 ^ 28) a.now) × (Reduced (2 ^ 28) b.now) }
    ensures by_index { (p : ℕ) → partial p a.now b.now k to ≡ plus p (partial p a.now b.now k from) (mk p result) }
    ensures upper_bound { result ≤ (to - from) * 72057593501057025 }
{
    let mut s = 0;
    for i in from..to {
        s += field::product(a[i], b[k - i]);
    }
    s
}

// A number in the class of `start` and the same sum, however many products that has: a remainder is taken before each `size` of them.
fn span(
    start: u32,
    a: &[u32],
    b: &[u32],
    from: usize,
    to: usize,
    k: usize,
    size: usize,
    p: u32,
) -> u64
    requires start_lt_p { (start < p) × (p ≤ 2 ^ 28) × (0 < size) × (size ≤ 256) }
    requires from_le_to { (from ≤ to) × (to ≤ max from (length a.now)) × (to ≤ k + 1) × (k < from + length b.now) × (k < 2 ^ 63) }
    requires reduced { (Reduced p a.now) × (Reduced p b.now) }
    ensures result_value { plus p (partial p a.now b.now k from) (mk p result)
        ≡ plus p (mk p start) (partial p a.now b.now k to) }
    ensures upper_bound { result < 2 ^ 28 + size * 72057593501057025 }
{
    let mut s = start;
    let mut i = from;
    // no `for` over the parts: it would take a remainder before the first one too, a division more for each coefficient
    while size < to - i {
        s = field::reduce(u64::from(s) + dot(a, b, i, i + size, k), p);
        i += size;
    }
    u64::from(s) + dot(a, b, i, to, k)
}

// `start` plus the coefficient k of the product.
pub fn coefficient(start: u32, a: &[u32], b: &[u32], k: usize, p: u32) -> u32
    requires start_lt_p { (start < p) × (p ≤ 2 ^ 28) × (k < 2 ^ 63) }
    requires reduced { (Reduced p a.now) × (Reduced p b.now) }
    ensures { Residue p (plus p (mk p start) (conv (Zmod p) (poly p a.now) (poly p b.now) k)) result }
{
    let from = (k + 1).saturating_sub(b.len());
    let to = from.max((k + 1).min(a.len()));
    field::reduce(span(start, a, b, from, to, k, 256, p), p)
}

// out = a b
pub fn product(a: &[u32], b: &[u32], out: &mut [u32], p: u32)
    requires p_nonzero { (0 < p) × (p ≤ 2 ^ 28) }
    requires reduced { (Reduced p a.now) × (Reduced p b.now) }
    ensures { Residues p (conv (Zmod p) (poly p a.now) (poly p b.now)) out.new }
{
    for n in 0..out.len() {
        out[n] = coefficient(0, a, b, n, p);
    }
}

// out = out + a b
pub fn add_product(a: &[u32], b: &[u32], out: &mut [u32], p: u32)
    requires p_nonzero { (0 < p) × (p ≤ 2 ^ 28) }
    requires reduced { (Reduced p a.now) × (Reduced p b.now) × (Reduced p out.old) }
    ensures { Residues p (sums (Zmod p) (poly p out.old)
        (conv (Zmod p) (poly p a.now) (poly p b.now))) out.new }
{
    for k in 0..out.len() {
        out[k] = coefficient(out[k], a, b, k, p);
    }
}

// The term of the coefficient k of a square that stands alone, where k is even: the square of the word at k / 2.
fn middle(a: &[u32], k: usize) -> u64
    ensures { Alone a.now k result }
{
    if k % 2 == 0 {
        let m = word(a, k / 2);
        field::product(m, m)
    } else {
        0
    }
}

// The coefficient k of the square: the terms before the middle one, twice, and the middle one, 255 products at most.
pub fn square_coefficient(a: &[u32], k: usize, p: u32) -> u32
    requires { (0 < p) × (p ≤ 2 ^ 28) × (k < 2 ^ 63) × (Reduced p a.now) }
    ensures { Residue p (conv (Zmod p) (poly p a.now) (poly p a.now) k) result }
{
    let from = (k + 1).saturating_sub(a.len());
    let to = from.max(((k + 1) / 2).min(a.len()));
    let half = span(0, a, a, from, to, k, 127, p);
    field::reduce(half + half + middle(a, k), p)
}

// out = a², each coefficient by itself.
pub fn square_by_coefficients(a: &[u32], out: &mut [u32], p: u32)
    requires { (0 < p) × (p ≤ 2 ^ 28) × (Reduced p a.now) }
    ensures { Residues p (conv (Zmod p) (poly p a.now) (poly p a.now)) out.new }
{
    for k in 0..out.len() {
        out[k] = square_coefficient(a, k, p);
    }
}

// out = a², where acc is room for the sums and e for a. Few coefficients are sooner there without the rows.
pub fn square(a: &[u32], e: &mut [u64], acc: &mut [u64], out: &mut [u32], m: Modulus)
    requires reduced { (Reduced m.p a.now) × (8 * turns (length a.now) (length out.old) * m.p ≤ 2 ^ 36) }
    requires acc_len { (length acc.old ≡ length out.old) × (length a.now + 6 ≤ length e.old) × (length a.now < 2 ^ 60) }
    ensures { Residues m.p (conv (Zmod m.p) (poly m.p a.now) (poly m.p a.now)) out.new }
{
    if out.len() < 8 {
        return square_by_coefficients(a, out, m.p);
    }
    rows::square(a, e, acc, m.p);
    m.remainders(acc, out);
}

// x + c y
fn plus_multiple(x: u32, c: u32, y: u32, p: u32) -> u32
    requires { 0 < p }
    ensures { Residue p (plus p (mk p x) (times p (mk p c) (mk p y))) result }
{
    field::reduce(u64::from(x) + field::product(c, y), p)
}

// out = out + c a
pub fn add_scaled(out: &mut [u32], a: &[u32], c: u32, p: u32)
    requires { (0 < p) × (Reduced p out.old) }
    ensures { Residues p (sums (Zmod p) (poly p out.old) (scaled (Zmod p) (mk p c) (poly p a.now))) out.new }
{
    for k in 0..out.len().min(a.len()) {
        out[k] = plus_multiple(out[k], c, a[k], p);
    }
}

// out = out - c a
pub fn subtract_scaled(out: &mut [u32], a: &[u32], c: u32, p: u32)
    requires { (c < p) × (Reduced p out.old) }
    ensures { Residues p (sums (Zmod p) (poly p out.old)
        (negs (Zmod p) (scaled (Zmod p) (mk p c) (poly p a.now)))) out.new }
{
    add_scaled(out, a, field::negate(c, p), p)
}

// out = c out
pub fn scale(out: &mut [u32], c: u32, p: u32)
    requires { 0 < p }
    ensures { Residues p (scaled (Zmod p) (mk p c) (poly p out.old)) out.new }
{
    for x in out.iter_mut() {
        *x = field::multiply(c, *x, p);
    }
}

// The coefficient k of the derivative.
fn derivative_coefficient(a: &[u32], k: usize, p: u32) -> u32
    requires { (0 < p) × (length a.now ≤ 2 ^ 32) × (k < 2 ^ 63) }
    ensures { Residue p (∂ (Zmod p) (poly p a.now) k) result }
{
    if k + 1 < a.len() {
        field::multiply((k + 1) as u32, a[k + 1], p)
    } else {
        0
    }
}

// out = a'
pub fn derivative(a: &[u32], out: &mut [u32], p: u32)
    requires { (0 < p) × (length a.now ≤ 2 ^ 32) }
    ensures { Residues p (∂ (Zmod p) (poly p a.now)) out.new }
{
    for k in 0..out.len() {
        out[k] = derivative_coefficient(a, k, p);
    }
}

// Do two slices of residues stand for the same polynomial, whatever their lengths?
pub fn equal(a: &[u32], b: &[u32]) -> bool
    ensures { (p : ℕ) → Reduced p a.now → Reduced p b.now → (result ≡ true) ↔ (poly p a.now ≡ poly p b.now) }
{
    (0..a.len().max(b.len())).all(|i| word::<u32>(a, i) == word::<u32>(b, i))
}

// out = a
pub fn copy(a: &[u32], out: &mut [u32])
    ensures { (p : ℕ) → Reduced p a.now → Residues p (poly p a.now) out.new }
{
    let n = a.len().min(out.len());
    out.fill(0);
    out[..n].copy_from_slice(&a[..n]);
}
