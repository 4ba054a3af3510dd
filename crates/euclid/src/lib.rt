// The degree of a greatest common divisor of two polynomials over ℤ/p, for p below 2^28: Euclid's algorithm on slices of residues, the constant term first.
// The words have 64 bits, so that the compiler makes vectors of the one long loop without widening and narrowing them.
// No coefficient is divided: a division step multiplies what is divided by the square of the divisor's last word, a unit, and takes two coefficients away at
// once, so that there are half as many passes over the words.
#![tactic(auto)]

ghost use Rattle.std.specs.Prelude.{◌≡◌, ◌∷◌, ◌+◌, ◌-◌, ◌*◌, ◌^◌, ◌<◌, ◌≤◌, length, get_or};
ghost use Rattle.series.specs.Series.{conv, sums, scaled};
ghost use Rattle.series.specs.Reversal.{shift};
ghost use Rattle.zmod.specs.Zmod.{Zmod, mk, plus, minus, times};
ghost use Rattle.zmod.specs.Prime.{Prime};
ghost use Rattle.zmod.specs.Residues.{Residue, Reduced, poly, Residues};
ghost use Rattle.euclid.specs.Words.{Trimmed, Leads};
ghost use Rattle.euclid.specs.Combination.{linear};
ghost use Rattle.euclid.specs.Pseudo.{PseudoRemainder};
ghost use Rattle.euclid.specs.Euclid.{GcdDegree};

use barrett::Modulus;

// c x
pub fn multiply(c: u64, x: u64, m: Modulus) -> u64
    requires { (c < m.p) × (x < m.p) }
    ensures { Residue m.p (times m.p (mk m.p c) (mk m.p x)) result }
{
    m.short_remainder(barrett::product(c, x))
}

// -x
pub fn negate(x: u64, p: u32) -> u64
    requires { x < p }
    ensures { Residue p (minus p (mk p x)) result }
{
    u64::from(field::negate(x as u32, p))
}

// c x + z y
pub fn two_products(c: u64, x: u64, z: u64, y: u64, m: Modulus) -> u64
    requires { (c < m.p) × (x < m.p) × (z < m.p) × (y < m.p) }
    ensures { Residue m.p (plus m.p (times m.p (mk m.p c) (mk m.p x)) (times m.p (mk m.p z) (mk m.p y))) result }
{
    m.short_remainder(barrett::product(c, x) + barrett::product(z, y))
}

// c x + y v + z w, before the remainder. By products of `barrett`, which the compiler turns into vectors.
fn three_products(c: u64, x: u64, y: u64, v: u64, z: u64, w: u64) -> u64
    requires { (c < 2 ^ 28) × (x < 2 ^ 28) × (y < 2 ^ 28) × (v < 2 ^ 28) × (z < 2 ^ 28) × (w < 2 ^ 28) }
    ensures { result ≡ c * x + y * v + z * w }
{
    barrett::product(c, x) + barrett::product(y, v) + barrett::product(z, w)
}

// out = c out + y before + z here
fn combine(out: &mut [u64], before: &[u64], here: &[u64], c: u64, y: u64, z: u64, m: Modulus)
    requires lt_p { (c < m.p) × (y < m.p) × (z < m.p) × (length out.old ≤ length before.now) × (length out.old ≤ length here.now) }
    requires reduced { (Reduced m.p out.old) × (Reduced m.p before.now) × (Reduced m.p here.now) }
    ensures { Residues m.p (sums (Zmod m.p) (sums (Zmod m.p) (scaled (Zmod m.p) (mk m.p c) (poly m.p out.old))
        (scaled (Zmod m.p) (mk m.p y) (poly m.p before.now)))
        (scaled (Zmod m.p) (mk m.p z) (poly m.p here.now))) out.new }
{
    for k in 0..out.len() {
        let sum = three_products(c, out[k], y, before[k], z, here[k]);
        out[k] = m.short_remainder(sum);
    }
}

// out = c out
fn scale(out: &mut [u64], c: u64, m: Modulus)
    requires { (c < m.p) × (Reduced m.p out.old) }
    ensures { Residues m.p (scaled (Zmod m.p) (mk m.p c) (poly m.p out.old)) out.new }
{
    for word in out.iter_mut() {
        *word = multiply(c, *word, m);
    }
}

// a = c a + (y x + z) x^s b, where s is by how much a is longer than b; of the product only the words that a has.
pub fn add_multiple(a: &mut [u64], b: &[u64], c: u64, y: u64, z: u64, m: Modulus)
    requires lt_p { (c < m.p) × (y < m.p) × (z < m.p) × (0 < length b.now) × (length b.now ≤ length a.old) }
    requires reduced { (Reduced m.p a.old) × (Reduced m.p b.now) }
    ensures { Residues m.p (sums (Zmod m.p) (scaled (Zmod m.p) (mk m.p c) (poly m.p a.old))
        (shift (Zmod m.p) (length a.old - length b.now)
        (conv (Zmod m.p) (linear (Zmod m.p) (mk m.p y) (mk m.p z)) (poly m.p b.now)))) a.new }
{
    let n = b.len() - 1;
    let s = a.len() - b.len();
    scale(&mut a[..s], c, m);
    a[s] = two_products(c, a[s], z, b[0], m);
    let t = s + 1;
    combine(&mut a[t..], &b[..n], &b[1..], c, y, z, m);
}

// The word before the last, or 0 where there is none.
fn second(b: &[u64]) -> u64
    requires { 0 < length b.now }
    ensures { result ≡ get_or (0 ∷ b.now) (length b.now - 1) 0 }
{
    let n = b.len();
    if n < 2 { 0 } else { b[n - 2] }
}

// a loses its two highest coefficients, and is a unit times what it was modulo b, which is shorter. With the last words a₁ and b₁ and those before, a₀ and b₀:
// a becomes b₁² a − (a₁ b₁ x + a₀ b₁ − a₁ b₀) xˢ b.
fn cancel_two(a: &mut [u64], b: &[u64], m: Modulus)
    requires { Prime m.p × (Leads m.p b.now) × (Reduced m.p a.old) × (length b.now < length a.old) }
    ensures { PseudoRemainder m.p (length a.old - 2) (poly m.p b.now) (poly m.p a.old) a.new }
{
    let k = a.len() - 1;
    let b1 = b[b.len() - 1];
    let b0 = second(b);
    let a1 = a[k];
    let a0 = a[k - 1];
    let c = multiply(b1, b1, m);
    let y = multiply(negate(a1, m.p), b1, m);
    let z = two_products(a1, b0, negate(a0, m.p), b1, m);
    add_multiple(&mut a[..k], b, c, y, z, m);
    a[k] = 0;
}

// The same where a has as many words as b, for its highest coefficient: a becomes b₁ a − a₁ b.
fn cancel_one(a: &mut [u64], b: &[u64], m: Modulus)
    requires { Prime m.p × (Leads m.p b.now) × (Reduced m.p a.old) × (length a.old ≡ length b.now) }
    ensures { PseudoRemainder m.p (length a.old - 1) (poly m.p b.now) (poly m.p a.old) a.new }
{
    let k = b.len() - 1;
    let a1 = negate(a[k], m.p);
    combine(a, b, b, b[k], a1, 0, m);
}

// How many words of a there are before the zeros at its end.
fn trimmed(a: &[u64]) -> usize
    ensures { Trimmed a.now result }
{
    match a.iter().rposition(|word| *word != 0) {
        Some(last) => last + 1,
        None => 0,
    }
}

// A step of Euclid's loop: a becomes a unit times its remainder modulo b. The result is the number of its coefficients.
fn next(a: &mut [u64], b: &[u64], m: Modulus) -> usize
    requires { Prime m.p × (Leads m.p b.now) × (Reduced m.p a.old) }
    ensures { (result < length b.now) × (Trimmed a.new result)
        × PseudoRemainder m.p result (poly m.p b.now) (poly m.p a.old) a.new }
{
    let n = b.len();
    let mut k = a.len();
    // No `for` in steps of 2: where the loop ends, k says whether a coefficient is left.
    while n < k {
        cancel_two(&mut a[..k], b, m);
        k -= 2;
    }
    if k == n {
        cancel_one(&mut a[..k], b, m);
    }
    trimmed(a)
}

// The degree of the greatest common divisor of a, of which the last word is not 0, and b. Both are room too: x and y are how many coefficients they have.
pub fn gcd_degree(a: &mut [u64], b: &mut [u64], m: Modulus) -> usize
    requires { Prime m.p × (Leads m.p a.old) × (Reduced m.p b.old) }
    ensures { GcdDegree (Zmod m.p) (poly m.p a.old) (poly m.p b.old) result }
{
    let mut x = a.len();
    let mut y = next(b, a, m);
    while 0 < y {
        x = next(&mut a[..x], &b[..y], m);
        if x == 0 {
            return y - 1;
        }
        y = next(&mut b[..y], &a[..x], m);
    }
    x - 1
}
