// The expansion at infinity from the two curves of a question, by document 01's recurrence: σ is not read. A loop fills a slice from the front, a word a
// turn, by a function that solves the equation at that place from the words before it.
#![tactic(auto)]

ghost use Rattle.std.specs.Prelude.{List, ℕ, ◌+◌, ◌-◌, ◌*◌, ◌^◌, ◌<◌, ◌≤◌, min, length};
ghost use Rattle.zmod.specs.Zmod.{Zmod, mk, minus};
ghost use Rattle.field.specs.Inverse.{Inverses};
ghost use Rattle.sheet.specs.Values.{question};
ghost use Rattle.expansion.specs.Multiple.{Multiple};
ghost use Rattle.expansion.specs.Equations.{ReducedTo, Solved, Solves};
ghost use Rattle.recurrence.specs.Equations.{HAt, Quotient};

use accepted::Accepted;

// y / k, by the table of inverses.
pub fn divide(y: u32, k: usize, table: &[u32], p: u32) -> u32
    requires { (0 < p) × (0 < k) × (k < length table.now) × Inverses p table.now }
    ensures { Quotient p k y result }
{
    field::multiply(table[k], y, p)
}

// -2a
pub fn minus_twice(a: u32, p: u32) -> u32
    requires { (a < p) × (p ≤ 2 ^ 28) }
    ensures { Multiple p 2 (minus p (mk p a)) result }
{
    let n = field::negate(a, p);
    field::add(n, n, p)
}

// h_k for k up to 2: h₀ = 0, 5h₁ = A - Ã, 7h₂ = B - B̃. (At 2 the recurrence's left side is 0.)
fn first_h(v: Accepted, table: &[u32], k: usize) -> u32
    requires inverses { Inverses v.values.p table.now × (2 * k + 3 < length table.now) }
    requires k_bound { k < 3 }
    ensures { (h : List ℕ) → k < length h → Solves v.values.p (HAt (Zmod v.values.p) (question v.values)) h k result }
{
    let p = v.values.p;
    if k == 0 {
        return 0;
    }
    if k == 1 {
        return divide(field::subtract(v.values.a, v.values.atilde, p), 5, table, p);
    }
    divide(field::subtract(v.values.b, v.values.btilde, p), 7, table, p)
}

// The words before 3, as many of them as there are.
fn begin_h(v: Accepted, table: &[u32], h: &mut [u32])
    requires inverses { Inverses v.values.p table.now × (2 * length h.old + 1 < length table.now) }
    ensures { Solved v.values.p (HAt (Zmod v.values.p) (question v.values)) h.new (min 3 (length h.old)) }
{
    for k in 0..h.len().min(3) {
        h[k] = first_h(v, table, k);
    }
}

// h_k by the recurrence, divided by k - 2: (2k + 3)h_k = 3x/(k - 2) + y h_(k-2) + z h_(k-3), where x is its sum, y = -(2k - 3)A and z = -(2k - 6)B.
fn next_h(v: Accepted, table: &[u32], h: &[u32], k: usize, y: u32, z: u32) -> u32
    requires inverses { Inverses v.values.p table.now × (2 * k + 3 < length table.now) }
    requires le_k { (3 ≤ k) × (k ≤ 1024) × (k < length h.now) × ReducedTo v.values.p h.now k }
    requires multiple { (Multiple v.values.p (2 * k - 3) (minus v.values.p (question v.values).A) y)
        × (Multiple v.values.p (2 * k - 6) (minus v.values.p (question v.values).B) z) }
    ensures { Solves v.values.p (HAt (Zmod v.values.p) (question v.values)) h.now k result }
{
    let p = v.values.p;
    let x = expansion::square_sum(h, k, p);
    let w = expansion::weighted(3 * table[k - 2], x, y, h[k - 2], z, h[k - 3], p);
    divide(w, 2 * k + 3, table, p)
}

// h = the expansion of the question's two curves, as far as h is long. The multiples of A and B are added up, so that they take no remainder.
pub fn expansion_of_curves(v: Accepted, table: &[u32], h: &mut [u32])
    requires inverses { Inverses v.values.p table.now × (2 * length h.old + 1 < length table.now) × (length h.old ≤ 1024) }
    ensures { Solved v.values.p (HAt (Zmod v.values.p) (question v.values)) h.new (length h.old) }
{
    let p = v.values.p;
    let a = minus_twice(v.values.a, p);
    let b = minus_twice(v.values.b, p);
    begin_h(v, table, h);
    let mut y = field::add(a, field::negate(v.values.a, p), p);
    let mut z = 0;
    for k in 3..h.len() {
        h[k] = next_h(v, table, h, k, y, z);
        y = field::add(y, a, p);
        z = field::add(z, b, p);
    }
}
