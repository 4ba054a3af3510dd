// The expansion at infinity over ℤ/p, on slices of residues: from the power sums of a polynomial's roots, and document 01's recurrence for it.
#![tactic(auto)]

ghost use Rattle.std.specs.Prelude.{◌≡◌, ◌↔◌, true, ℕ, ◌+◌, ◌-◌, ◌*◌, ◌^◌, ◌<◌, ◌≤◌, length, get_or};
ghost use Rattle.slices.specs.Filling.{Filled};
ghost use Rattle.zmod.specs.Zmod.{Zmod, mk, plus, times};
ghost use Rattle.zmod.specs.Residues.{Residue, Reduced, poly, Residues};
ghost use Rattle.isogeny.specs.Expansion.{expansion as expansion_of, Recurs, sum_to};
ghost use Rattle.sheet.specs.Values.{question};
ghost use Rattle.expansion.specs.Products.{Squares};
ghost use Rattle.expansion.specs.Multiple.{Multiple};
ghost use Rattle.expansion.specs.Equations.{ReducedTo};

use accepted::Accepted;

// l x + m y + n z
pub fn weighted(l: u32, x: u32, m: u32, y: u32, n: u32, z: u32, p: u32) -> u32
    requires { (0 < p) × (x < 2 ^ 28) × (y < 2 ^ 28) × (z < 2 ^ 28) }
    ensures { Residue p (plus p (plus p (times p (mk p l) (mk p x)) (times p (mk p m) (mk p y))) (times p (mk p n) (mk p z))) result }
{
    field::reduce(field::combination(l, x, m, y, n, z), p)
}

// out is a backwards, by its index as the edit `reversed_off_by_one` needs it.
pub fn reverse(a: &[u32], out: &mut [u32])
    requires { length out.old ≡ length a.now }
    ensures { Filled (λ i w. w ≡ get_or a.now (length a.now - 1 - i) 0) out.new (length a.now) }
{
    let n = a.len();
    for i in 0..n {
        out[i] = a[n - 1 - i];
    }
}

// ── the expansion from the power sums

// h_i = (2i + 1)s_(i+1) + (2i - 1)A s_(i-1) + (2i - 2)B s_(i-2), where y = (2i - 1)A and z = (2i - 2)B.
fn expansion_at(v: Accepted, s: &[u32], i: usize, y: u32, z: u32) -> u32
    requires le_i { (1 ≤ i) × (i + 1 < length s.now) × (length s.now ≤ 1024) × Reduced v.values.p s.now }
    requires multiple { (Multiple v.values.p (2 * i - 1) (question v.values).A y) × (Multiple v.values.p (2 * i - 2) (question v.values).B z) }
    ensures { Residue v.values.p (expansion_of (Zmod v.values.p) (question v.values).A (question v.values).B (poly v.values.p s.now) i) result }
{
    let n = i as u32;
    weighted(
        2 * n + 1,
        s[i + 1],
        y,
        s[i - 1],
        z,
        s[i.saturating_sub(2)],
        v.values.p,
    )
}

// h = the expansion of N/g², from the power sums s, where the words before `known` stand there already. The multiples of A and B are added up, so that
// each word takes one remainder.
pub fn expansion(v: Accepted, s: &[u32], h: &mut [u32], known: usize)
    requires h_nonzero { (0 < length h.old) × (length h.old < length s.now) × (length s.now ≤ 1024) × Reduced v.values.p s.now × (known ≤ length h.old) }
    requires by_index { (k : ℕ) → k < known
        → Residue v.values.p (expansion_of (Zmod v.values.p) (question v.values).A (question v.values).B (poly v.values.p s.now) k) (get_or h.old k 0) }
    ensures { Residues v.values.p (expansion_of (Zmod v.values.p) (question v.values).A (question v.values).B (poly v.values.p s.now)) h.new }
{
    let p = v.values.p;
    let a = field::add(v.values.a, v.values.a, p);
    let b = field::add(v.values.b, v.values.b, p);
    h[0] = 0;
    let first = known.max(1);
    let n = first as u32;
    let mut y = field::multiply(2 * n - 1, v.values.a, p);
    let mut z = field::multiply(2 * n - 2, v.values.b, p);
    for i in first..h.len() {
        h[i] = expansion_at(v, s, i, y, z);
        y = field::add(y, a, p);
        z = field::add(z, b, p);
    }
}

// ── the recurrence

// The sum of h_i h_(k-1-i), i from 1 to k - 2.
pub fn square_sum(h: &[u32], k: usize, p: u32) -> u32
    requires { (0 < p) × (p ≤ 2 ^ 28) × (3 ≤ k) × (k ≤ 1024) × (k ≤ length h.now) × ReducedTo p h.now k }
    ensures { Residue p (sum_to (Zmod p) (λ i. times p (poly p h.now i) (poly p h.now (k - 1 - i))) (k - 2)) result }
{
    let part = &h[1..k - 1];
    poly::square_coefficient(part, k - 3, p)
}

// (k - 2)(2k + 3)h_k is the recurrence's right side, where y = (2k - 3)A and z = (2k - 6)B: all on one side, (k - 2)((2k + 3)h_k + y h_(k-2) + z h_(k-3))
// less 3·(the sum) is 0.
fn recurs_at(v: Accepted, h: &[u32], squares: &[u32], k: usize, y: u32, z: u32) -> bool
    requires le_k { (3 ≤ k) × (k < length h.now) × (length h.now ≤ 1024) × Reduced v.values.p h.now }
    requires h_in_bounds { (length h.now ≤ length squares.now + 3) × Squares v.values.p h.now squares.now }
    requires multiple { (Multiple v.values.p (2 * k - 3) (question v.values).A y) × (Multiple v.values.p (2 * k - 6) (question v.values).B z) }
    ensures { (result ≡ true) ↔ Recurs (Zmod v.values.p) (question v.values).A (question v.values).B (poly v.values.p h.now) k }
{
    let p = v.values.p;
    let n = k as u32;
    let u = weighted(2 * n + 3, h[k], y, h[k - 2], z, h[k - 3], p);
    let x = field::negate(squares[k - 3], p);
    weighted(n - 2, u, 3, x, 0, 0, p) == 0
}

// The same from `from` on, wherever it can be read off h's words.
fn recurs_by(v: Accepted, h: &[u32], squares: &[u32], from: usize) -> bool
    requires h_len_bound { (length h.now ≤ 1024) × Reduced v.values.p h.now × (3 ≤ from) × (from ≤ length h.now) }
    requires h_in_bounds { (length h.now ≤ length squares.now + 3) × Squares v.values.p h.now squares.now }
    ensures { (result ≡ true) ↔ ((k : ℕ) → from ≤ k → k < length h.now →
        Recurs (Zmod v.values.p) (question v.values).A (question v.values).B (poly v.values.p h.now) k) }
{
    let p = v.values.p;
    let a = field::add(v.values.a, v.values.a, p);
    let b = field::add(v.values.b, v.values.b, p);
    let n = from as u32;
    let mut y = field::multiply(2 * n - 3, v.values.a, p);
    let mut z = field::multiply(2 * n - 6, v.values.b, p);
    for k in from..h.len() {
        if !recurs_at(v, h, squares, k, y, z) {
            return false;
        }
        y = field::add(y, a, p);
        z = field::add(z, b, p);
    }
    true
}

// Does h obey the recurrence from `from` on, wherever it can be read off its words? All its sums are those of one square; e, acc and squares are its room.
pub fn recurs(
    v: Accepted,
    h: &[u32],
    from: usize,
    e: &mut [u64],
    acc: &mut [u64],
    squares: &mut [u32],
) -> bool
    requires h_len_bound { (length h.now ≤ 256) × Reduced v.values.p h.now × (3 ≤ from) × (from ≤ length h.now) }
    requires squares_len { (length squares.old ≡ length h.now - 3) × (length acc.old ≡ length squares.old) × (length h.now + 5 ≤ length e.old) }
    ensures { (result ≡ true) ↔ ((k : ℕ) → from ≤ k → k < length h.now →
        Recurs (Zmod v.values.p) (question v.values).A (question v.values).B (poly v.values.p h.now) k) }
{
    poly::square(&h[1..], e, acc, squares, v.modulus);
    recurs_by(v, h, squares, from)
}
