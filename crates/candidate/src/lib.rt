// The one polynomial that can meet the rules for a question: from the curves the expansion at infinity (crate `recurrence`), from it and σ the power sums,
// from them the coefficients. Each loop fills a slice from the front, a word a turn, by a function that solves the equation at that place from the words
// before it.
#![tactic(auto)]

ghost use Rattle.std.specs.Prelude.{◌≡◌, ◌+◌, ◌-◌, ◌*◌, ◌^◌, ◌<◌, ◌≤◌, length};
ghost use Rattle.series.specs.Series.{Seq};
ghost use Rattle.zmod.specs.Zmod.{Zmod, minus};
ghost use Rattle.zmod.specs.Residues.{Residue, Reduced, poly};
ghost use Rattle.field.specs.Inverse.{Inverses};
ghost use Rattle.sheet.specs.Values.{half, question};
ghost use Rattle.expansion.specs.Multiple.{Multiple};
ghost use Rattle.expansion.specs.Equations.{ReducedTo, Solved, Solves};
ghost use Rattle.candidate.specs.Candidate.{Candidate};
ghost use Rattle.candidate.specs.Equations.{SAt, CAt, far};

use accepted::Accepted;

// s₀ = ℓ - 1 and s₁ = σ.
fn begin_s(v: Accepted, s: &mut [u32])
    requires in_bounds { 2 ≤ length s.old }
    ensures { (h : Seq (Zmod v.values.p)) → Solved v.values.p (SAt (Zmod v.values.p) (question v.values) h) s.new 2 }
{
    s[0] = field::reduce(u64::from(v.values.degree - 1), v.values.p);
    s[1] = v.values.sigma;
}

// s_(i+1) from the formula for h_i: (2i + 1)s_(i+1) = h_i + y s_(i-1) + z s_(i-2), where y = -(2i - 1)A and z = -(2i - 2)B.
fn next_s(v: Accepted, table: &[u32], h: &[u32], s: &[u32], i: usize, y: u32, z: u32) -> u32
    requires inverses { Inverses v.values.p table.now × (2 * half v.values + 1 < length table.now) }
    requires h_len { (length h.now ≡ half v.values) × Reduced v.values.p h.now }
    requires le_i { (1 ≤ i) × (i < half v.values) × (i + 1 < length s.now) × ReducedTo v.values.p s.now (i + 1) }
    requires multiple { (Multiple v.values.p (2 * i - 1) (minus v.values.p (question v.values).A) y)
        × (Multiple v.values.p (2 * i - 2) (minus v.values.p (question v.values).B) z) }
    ensures { Solves v.values.p (SAt (Zmod v.values.p) (question v.values) (poly v.values.p h.now)) s.now (i + 1) result }
{
    let p = v.values.p;
    let w = expansion::weighted(1, h[i], y, s[i - 1], z, s[i.saturating_sub(2)], p);
    recurrence::divide(w, 2 * i + 1, table, p)
}

fn fill_s(v: Accepted, table: &[u32], h: &[u32], s: &mut [u32])
    requires inverses { Inverses v.values.p table.now × (2 * half v.values + 1 < length table.now) }
    requires h_len { (length h.now ≡ half v.values) × Reduced v.values.p h.now × (length s.old ≡ half v.values + 1) }
    ensures { Solved v.values.p (SAt (Zmod v.values.p) (question v.values) (poly v.values.p h.now)) s.new (length s.old) }
{
    let p = v.values.p;
    let a = recurrence::minus_twice(v.values.a, p);
    let b = recurrence::minus_twice(v.values.b, p);
    begin_s(v, s);
    let mut y = field::negate(v.values.a, p);
    let mut z = 0;
    for i in 1..h.len() {
        s[i + 1] = next_s(v, table, h, s, i, y, z);
        y = field::add(y, a, p);
        z = field::add(z, b, p);
    }
}

// The sum of s_i c_(k-i), i from 2 to k.
fn far_sum(s: &[u32], c: &[u32], k: usize, p: u32) -> u32
    requires p_nonzero { (0 < p) × (p ≤ 2 ^ 28) × (1 ≤ k) × (k ≤ 1024) × (k < length s.now) × (k ≤ length c.now) }
    requires reduced { Reduced p s.now × ReducedTo p c.now k }
    ensures { Residue p (far (Zmod p) (poly p s.now) (poly p c.now) k) result }
{
    if k == 1 {
        return 0;
    }
    let above = &s[2..];
    let before = &c[..k - 1];
    poly::coefficient(0, above, before, k - 2, p)
}

// c_k by Newton's identity, 2k c_k = -(the sum of s_i c_(k-i), i from 1 to k). What takes time are remainders that wait for each other: so, with t = -1/2k,
// those of the sum from 2 on and of s₁t are taken without c_(k-1), and c_k's alone waits for it.
fn next_c(v: Accepted, table: &[u32], s: &[u32], c: &[u32], k: usize) -> u32
    requires inverses { Inverses v.values.p table.now × (2 * half v.values + 1 < length table.now) }
    requires s_len { (length s.now ≡ half v.values + 1) × Reduced v.values.p s.now }
    requires le_k { (1 ≤ k) × (k ≤ half v.values) × (k < length c.now) × ReducedTo v.values.p c.now k }
    ensures { Solves v.values.p (CAt (Zmod v.values.p) (poly v.values.p s.now)) c.now k result }
{
    let p = v.values.p;
    let t = field::negate(table[2 * k], p);
    let u = field::multiply(s[1], t, p);
    expansion::weighted(far_sum(s, c, k, p), t, u, c[k - 1], 0, 0, p)
}

fn fill_c(v: Accepted, table: &[u32], s: &[u32], c: &mut [u32])
    requires inverses { Inverses v.values.p table.now × (2 * half v.values + 1 < length table.now) }
    requires s_len { (length s.now ≡ half v.values + 1) × Reduced v.values.p s.now × (length c.old ≡ half v.values + 1) }
    ensures { Solved v.values.p (CAt (Zmod v.values.p) (poly v.values.p s.now)) c.new (length c.old) }
{
    c[0] = 1;
    for k in 1..c.len() {
        c[k] = next_c(v, table, s, c, k);
    }
}

fn solution(
    v: Accepted,
    table: &mut [u32],
    h: &mut [u32],
    s: &mut [u32],
    c: &mut [u32],
    g: &mut [u32],
)
    requires table_len { (length table.old ≡ 2 * half v.values + 2) × (length h.old ≡ half v.values) }
    requires s_len { (length s.old ≡ half v.values + 1) × (length c.old ≡ half v.values + 1) × (length g.old ≡ half v.values + 1) }
    ensures { Candidate v.values h.new s.new g.new }
{
    field::inverses(table, v.values.p);
    recurrence::expansion_of_curves(v, table, h);
    fill_s(v, table, h, s);
    fill_c(v, table, s, c);
    expansion::reverse(c, g);
}

// g = the only polynomial that can meet the rules; the front of h and s takes its expansion and its power sums. table and c are room.
pub fn candidate(
    v: Accepted,
    table: &mut [u32],
    h: &mut [u32],
    s: &mut [u32],
    c: &mut [u32],
    g: &mut [u32],
)
    requires table_len { (length table.old ≡ 2 * half v.values + 2) × (half v.values ≤ length h.old) }
    requires v_in_bounds { (half v.values + 1 ≤ length s.old) × (half v.values + 1 ≤ length c.old) × (length g.old ≡ half v.values + 1) }
    ensures { Candidate v.values h.new s.new g.new }
{
    let n = g.len();
    let d = n - 1;
    solution(v, table, &mut h[..d], &mut s[..n], &mut c[..n], g);
}
