// The rules R1 and R2 over slices of residues, for the values of a sheet: whether g meets R1, and the N that R2 gives, in three parts. g has d + 1
// words and N has 2d + 2, the constant term first.
#![tactic(auto)]

ghost use Rattle.std.specs.Prelude.{◌≡◌, ◌↔◌, true, ◌+◌, ◌-◌, ◌*◌, ◌^◌, ◌<◌, ◌≤◌, length, get_or};
ghost use Rattle.series.specs.Series.{Seq, conv, negs, ∂};
ghost use Rattle.zmod.specs.Zmod.{Zmod, mk, minus, times};
ghost use Rattle.zmod.specs.Residues.{Residue, Reduced, poly, Residues};
ghost use Rattle.isogeny.specs.Rules.{N, linear_part_of, first_logarithmic_part_of, second_logarithmic_part_of, R1};
ghost use Rattle.sheet.specs.Values.{half, question};
ghost use Rattle.sheet.specs.Ready.{HoldsG};
ghost use Rattle.rules.specs.Numerator.{minus_slope, minus_bend, bend_from};
ghost use Rattle.rules.specs.Products.{Products};

use accepted::Accepted;

// ── R1

// -2 x
fn minus_twice(x: u32, p: u32) -> u32
    requires { 0 < p }
    ensures { Residue p (minus p (times p (mk p 2) (mk p x))) result }
{
    field::negate(field::multiply(2, x, p), p)
}

// Does g meet R1?
pub fn rule_one(v: Accepted, g: &[u32]) -> bool
    requires { HoldsG v.values g.now }
    ensures { (result ≡ true) ↔ (R1 (Zmod v.values.p) (question v.values) (poly v.values.p g.now)) }
{
    let d = g.len() - 1;
    if g[d] != 1 {
        return false;
    }
    minus_twice(g[d - 1], v.values.p) == v.values.sigma
}

// ── R2
//
// Formula (13) of source document 001, with D = g²:
//
//     N/D = ℓx - σ - (3x² + A)(D'/D) - 2(x³ + Ax + B)(D'/D)'
//
// Times D, sign and number included, the quotients are polynomials: -D' is -2gg', and -2D(D'/D)' is -4(gg'' - g'²). `products` forms them and g², once;
// ℓx - σ, 3x² + A and x³ + Ax + B times these are the three parts of N, and their sum is N.

// The coefficient i of -s'. With s = g² this is where the second part gets its sign.
fn slope_coefficient(s: &[u32], i: usize, p: u32) -> u32
    requires { (0 < p) × (p ≤ 2 ^ 28) × (Reduced p s.now) × (i < 2 ^ 16) }
    ensures { Residue p (minus p (∂ (Zmod p) (poly p s.now) i)) result }
{
    let less = field::subtract(0, rows::word(s, i + 1), p);
    field::multiply((i as u32) + 1, less, p)
}

// out = -s'
pub fn slope_of(s: &[u32], out: &mut [u32], p: u32)
    requires { (0 < p) × (p ≤ 2 ^ 28) × (Reduced p s.now) × (length out.old ≤ 255) }
    ensures { Residues p (negs (Zmod p) (∂ (Zmod p) (poly p s.now))) out.new }
{
    for i in 0..out.len() {
        out[i] = slope_coefficient(s, i, p);
    }
}

// The coefficient i of 2s' + 8t.
fn bend_coefficient(s: &[u32], t: &[u32], i: usize, p: u32) -> u32
    requires { (0 < p) × (p ≤ 2 ^ 28) × (Reduced p s.now) × (Reduced p t.now) × (i < 2 ^ 16) }
    ensures { Residue p (bend_from (Zmod p) (poly p s.now) (poly p t.now) i) result }
{
    let n = (i as u32) + 1;
    let above = rows::word(s, i + 1);
    field::reduce(
        field::combination(2 * n, above, 8, rows::word(t, i), 0, 0),
        p,
    )
}

// out = 2s' + 8t
pub fn bend_of(s: &[u32], t: &[u32], out: &mut [u32], p: u32)
    requires { (0 < p) × (p ≤ 2 ^ 28) × (Reduced p s.now) × (Reduced p t.now) × (length out.old ≤ 255) }
    ensures { Residues p (bend_from (Zmod p) (poly p s.now) (poly p t.now)) out.new }
{
    for i in 0..out.len() {
        out[i] = bend_coefficient(s, t, i, p);
    }
}

// The word j places before k, 0 where there is none.
fn back(a: &[u32], j: usize, k: usize) -> u32
    ensures { (k < j → result ≡ 0) × (j ≤ k → result ≡ get_or a.now (k - j) 0) }
{
    if k < j { 0 } else { rows::word(a, k - j) }
}

// The part of ℓx - σ: a number in the class of the coefficient k of (ℓx - σ)g², from g².
pub fn linear_part(v: Accepted, square: &[u32], k: usize) -> u64
    requires { Reduced v.values.p square.now }
    ensures result_value { (g : Seq (Zmod v.values.p)) → poly v.values.p square.now ≡ conv (Zmod v.values.p) g g
        → mk v.values.p result ≡ linear_part_of (Zmod v.values.p) (question v.values) g k }
    ensures upper_bound { result < 2 ^ 62 }
{
    let minus_sigma = field::negate(v.values.sigma, v.values.p);
    field::combination(
        v.values.degree,
        back(square, 1, k),
        minus_sigma,
        rows::word(square, k),
        0,
        0,
    )
}

// The part of D'/D: the same of -2(3x² + A)gg', from -2gg'.
pub fn first_logarithmic_part(v: Accepted, slope: &[u32], k: usize) -> u64
    requires { Reduced v.values.p slope.now }
    ensures result_value { (g : Seq (Zmod v.values.p)) → poly v.values.p slope.now ≡ minus_slope (Zmod v.values.p) g
        → mk v.values.p result ≡ first_logarithmic_part_of (Zmod v.values.p) (question v.values) g k }
    ensures upper_bound { result < 2 ^ 62 }
{
    field::combination(3, back(slope, 2, k), v.values.a, rows::word(slope, k), 0, 0)
}

// The part of (D'/D)': the same of -4f(gg'' - g'²), from -4(gg'' - g'²).
pub fn second_logarithmic_part(v: Accepted, bend: &[u32], k: usize) -> u64
    requires { Reduced v.values.p bend.now }
    ensures result_value { (g : Seq (Zmod v.values.p)) → poly v.values.p bend.now ≡ minus_bend (Zmod v.values.p) g
        → mk v.values.p result ≡ second_logarithmic_part_of (Zmod v.values.p) (question v.values) g k }
    ensures upper_bound { result < 2 ^ 62 }
{
    field::combination(
        1,
        back(bend, 3, k),
        v.values.a,
        back(bend, 1, k),
        v.values.b,
        rows::word(bend, k),
    )
}

// The coefficient k of N: the three parts, in the order of (13), and one remainder.
fn coefficient(v: Accepted, square: &[u32], slope: &[u32], bend: &[u32], k: usize) -> u32
    requires { (Reduced v.values.p square.now) × (Reduced v.values.p slope.now) × (Reduced v.values.p bend.now) }
    ensures { (g : Seq (Zmod v.values.p)) → Products v.values.p g square.now slope.now bend.now
        → Residue v.values.p (N (Zmod v.values.p) (question v.values) g k) result }
{
    let linear = linear_part(v, square, k);
    let first = first_logarithmic_part(v, slope, k);
    let second = second_logarithmic_part(v, bend, k);
    field::reduce(linear + first + second, v.values.p)
}

// out = N
pub fn sum_of_parts(v: Accepted, square: &[u32], slope: &[u32], bend: &[u32], out: &mut [u32])
    requires { (Reduced v.values.p square.now) × (Reduced v.values.p slope.now) × (Reduced v.values.p bend.now) }
    ensures { (g : Seq (Zmod v.values.p)) → Products v.values.p g square.now slope.now bend.now
        → Residues v.values.p (N (Zmod v.values.p) (question v.values) g) out.new }
{
    for k in 0..out.len() {
        out[k] = coefficient(v, square, slope, bend, k);
    }
}
