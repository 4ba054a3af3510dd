// R3 coefficient by coefficient: both sides whole, and compared. It asks nothing of p.
#![tactic(auto)]

ghost use Rattle.std.specs.Prelude.{◌≡◌, ◌↔◌, true, ◌+◌, ◌*◌, ◌^◌, ◌<◌, ◌≤◌, length, take};
ghost use Rattle.series.specs.Series.{conv, sums, scaled, ∂};
ghost use Rattle.zmod.specs.Zmod.{Zmod, mk};
ghost use Rattle.zmod.specs.Residues.{Reduced, poly, Residues};
ghost use Rattle.isogeny.specs.Rules.{R3, f, left, right};
ghost use Rattle.sheet.specs.Values.{half, question};
ghost use Rattle.sheet.specs.Ready.{HoldsG, HoldsN};
ghost use Rattle.rules.specs.Words.{Whole};
ghost use Rattle.sides.specs.Sides.{factor, crossed};

use accepted::Accepted;

// The most coefficients that either side has: 3ℓ + 1, where ℓ is 255.
const ROOM: usize = 766;

// f = x³ + Ax + B
fn cubic_words(v: Accepted) -> [u32; 4]
    ensures { Whole v.values.p (f (Zmod v.values.p) (question v.values)) result }
{
    [v.values.b, v.values.a, 0, 1]
}

// The first n coefficients of a².
fn square(a: &[u32], n: usize, p: u32) -> [u32; ROOM]
    requires { (0 < p) × (p ≤ 2 ^ 28) × (Reduced p a.now) × (n ≤ ROOM) }
    ensures { Residues p (conv (Zmod p) (poly p a.now) (poly p a.now)) (take n result) }
{
    let mut r = [0; ROOM];
    poly::square_by_coefficients(a, &mut r[..n], p);
    r
}

// The first n coefficients of a'.
fn derivative(a: &[u32], n: usize, p: u32) -> [u32; ROOM]
    requires { (0 < p) × (length a.now ≤ 2 ^ 32) × (n ≤ ROOM) }
    ensures { Residues p (∂ (Zmod p) (poly p a.now)) (take n result) }
{
    let mut r = [0; ROOM];
    poly::derivative(a, &mut r[..n], p);
    r
}

// The k coefficients of n² + a h.
fn square_and(n: &[u32], h: &[u32], k: usize, a: u32, p: u32) -> [u32; ROOM]
    requires { (0 < p) × (p ≤ 2 ^ 28) × (Reduced p n.now) × (k ≤ ROOM) × (k + 1 ≡ 2 * length n.now) × (length h.now ≤ k) }
    ensures { Whole p (factor (Zmod p) (mk p a) (poly p n.now) (poly p h.now)) (take k result) }
{
    let mut r = square(n, k, p);
    poly::add_scaled(&mut r[..k], h, a, p);
    r
}

// out = b h s + n t
fn add_terms(n: &[u32], s: &[u32], h: &[u32], t: &[u32], b: u32, out: &mut [u32], p: u32)
    requires { (0 < p) × (p ≤ 2 ^ 28) × (Reduced p n.now) × (Reduced p s.now) × (Reduced p h.now) × (Reduced p t.now) }
    ensures { Residues p (sums (Zmod p) (scaled (Zmod p) (mk p b) (conv (Zmod p) (poly p h.now) (poly p s.now)))
        (conv (Zmod p) (poly p n.now) (poly p t.now))) out.new }
{
    poly::product(h, s, out, p);
    poly::scale(out, b, p);
    poly::add_product(n, t, out, p);
}

// The right side of R3.
fn right_side(v: Accepted, g: &[u32], n: &[u32], out: &mut [u32])
    requires holds_g { HoldsG v.values g.now }
    requires holds_n { HoldsN v.values n.now }
    ensures { Residues v.values.p (right (Zmod v.values.p) (question v.values) (poly v.values.p g.now) (poly v.values.p n.now)) out.new }
{
    let p = v.values.p;
    let d = g.len() - 1;
    let i = 2 * d + 1;
    let j = 4 * d + 1;
    let k = 4 * d + 3;
    let s = square(g, i, p);
    let h = square(&s[..i], j, p);
    let t = square_and(n, &h[..j], k, v.values.atilde, p);
    add_terms(n, &s[..i], &h[..j], &t[..k], v.values.btilde, out, p);
}

// w = n'g - 2ng', where dg is to be g' and dn n'.
fn cross(g: &[u32], n: &[u32], dg: &[u32], dn: &[u32], w: &mut [u32], p: u32)
    requires { (11 ≤ p) × (p ≤ 2 ^ 28) × (Reduced p g.now) × (Reduced p n.now) × (Reduced p dg.now) × (Reduced p dn.now) }
    ensures { Residues p (crossed (Zmod p) (poly p g.now) (poly p n.now)
        (poly p dg.now) (poly p dn.now)) w.new }
{
    poly::product(n, dg, w, p);
    poly::scale(w, p - 2, p);
    poly::add_product(dn, g, w, p);
}

// The left side of R3.
fn left_side(v: Accepted, g: &[u32], n: &[u32], out: &mut [u32])
    requires holds_g { HoldsG v.values g.now }
    requires holds_n { HoldsN v.values n.now }
    ensures { Residues v.values.p (left (Zmod v.values.p) (question v.values) (poly v.values.p g.now) (poly v.values.p n.now)) out.new }
{
    let p = v.values.p;
    let d = g.len() - 1;
    let i = 2 * d + 1;
    let j = 3 * d + 1;
    let k = 6 * d + 1;
    let dg = derivative(g, d, p);
    let dn = derivative(n, i, p);
    let mut w = [0; ROOM];
    cross(g, n, &dg[..d], &dn[..i], &mut w[..j], p);
    let ww = square(&w[..j], k, p);
    let cubic = cubic_words(v);
    poly::product(&cubic, &ww[..k], out, p);
}

// Does R3 hold? l and r take the two sides, which have 3ℓ + 1 coefficients.
fn sides_agree(v: Accepted, g: &[u32], n: &[u32], l: &mut [u32], r: &mut [u32]) -> bool
    requires holds_g { HoldsG v.values g.now }
    requires holds_n { HoldsN v.values n.now }
    requires l_len { (length l.old ≡ 6 * half v.values + 4) × (length r.old ≡ 6 * half v.values + 4) }
    ensures { (result ≡ true) ↔ (R3 (Zmod v.values.p) (question v.values) (poly v.values.p g.now) (poly v.values.p n.now)) }
{
    left_side(v, g, n, l);
    right_side(v, g, n, r);
    poly::equal(l, r)
}

// Does R3 hold?
pub fn compare(v: Accepted, g: &[u32], n: &[u32]) -> bool
    requires holds_g { HoldsG v.values g.now }
    requires holds_n { HoldsN v.values n.now }
    ensures { (result ≡ true) ↔ (R3 (Zmod v.values.p) (question v.values) (poly v.values.p g.now) (poly v.values.p n.now)) }
{
    let d = g.len() - 1;
    let k = 6 * d + 4;
    let mut l = [0; ROOM];
    let mut r = [0; ROOM];
    sides_agree(v, g, n, &mut l[..k], &mut r[..k])
}
