// The power sums of a polynomial's roots over ℤ/p, by Newton's identities, on slices of residues: four at a time and by rows, from where they are known.
#![tactic(auto)]

ghost use Rattle.std.specs.Prelude.{◌≡◌, ℕ, ◌+◌, ◌*◌, ◌%◌, ◌^◌, ◌<◌, ◌≤◌, length, get_or};
ghost use Rattle.series.specs.Series.{Seq};
ghost use Rattle.zmod.specs.Zmod.{Zmod, mk};
ghost use Rattle.zmod.specs.Residues.{Residue, Reduced, poly, Residues};
ghost use Rattle.isogeny.specs.Expansion.{power_sums_of};
ghost use Rattle.sheet.specs.Values.{half};
ghost use Rattle.sheet.specs.Ready.{HoldsG};
ghost use Rattle.rows.specs.Rows.{Four};
ghost use Rattle.expansion.specs.Equations.{ReducedTo};
ghost use Rattle.expansion.specs.Begun.{KnownSums};
ghost use Rattle.power_sums.specs.Sums.{Negated, Backwards, Weights, most_due, Due, Known};

use accepted::Accepted;

// e = -c₁, -c₂, .., -c_d, where c is g reversed; then zeros.
fn negated(g: &[u32], e: &mut [u64], p: u32)
    requires { (1 ≤ length g.now) × (length g.now ≤ length e.old + 1) × Reduced p g.now }
    ensures { Backwards p g.now e.new }
{
    e.fill(0);
    let d = g.len() - 1;
    for t in 0..d {
        e[t] = u64::from(field::negate(g[d - 1 - t], p));
    }
}

// acc_k = -2k c_k
fn weights(e: &[u64], d: usize, acc: &mut [u64])
    requires in_bounds { 1 ≤ length acc.old }
    requires d_bound { (d ≤ 127) × (d ≤ length e.now) × Reduced (2 ^ 28) e.now × ((t : ℕ) → d ≤ t → get_or e.now t 0 ≡ 0) }
    ensures { Weights e.now acc.new }
{
    acc.fill(0);
    for k in 1..acc.len().min(d + 1) {
        acc[k] = barrett::product(2 * (k as u64), e[k - 1]);
    }
}

// The residue of s + w a + x b + y c.
fn residue(s: u64, w: u32, a: u64, x: u32, b: u64, y: u32, c: u64, p: u32) -> u32
    requires { (0 < p) × (a < 2 ^ 28) × (b < 2 ^ 28) × (c < 2 ^ 28) × (s + w * a + x * b + y * c < 2 ^ 64) }
    ensures { Residue p (mk p (s + w * a + x * b + y * c)) result }
{
    let sum = rows::sum_more(s, u64::from(w), a, u64::from(x), b, u64::from(y), c, 0, 0);
    field::reduce(sum, p)
}

// Four words from `at` on. (One function with `rows::put` would be over slices of any type, of which `Four`, a fact of numbers, says nothing.)
fn put(out: &mut [u32], at: usize, w: u32, x: u32, y: u32, z: u32)
    requires { at + 4 ≤ length out.old }
    ensures { Four out.old at w x y z out.new }
{
    out[at..at + 4].copy_from_slice(&[w, x, y, z]);
}

// The rows of the four power sums from i on, for those from `from` on. (The factors are read back from s: of remainders the compiler knows too much, and
// takes a product of 64 bits where the vectors have one of 32.)
fn sums_rows(e: &[u64], d: usize, acc: &mut [u64], s: &[u32], i: usize, from: usize, p: u32)
    requires le_i { (1 ≤ i) × (i + 4 ≤ from) × (from ≤ length acc.old) × (length acc.old ≤ 257) × (from ≤ i + 4 + d) × (d + 3 ≤ length e.now) }
    requires p_nonzero { (0 < p) × (p ≤ 2 ^ 28) × Reduced p e.now × ((t : ℕ) → d ≤ t → get_or e.now t 0 ≡ 0) × ReducedTo p s.now (i + 4) }
    requires by_index { (k : ℕ) → get_or acc.old k 0 ≤ most_due i }
    ensures by_index_2 { (k : ℕ) → get_or acc.new k 0 ≤ most_due (i + 4) }
    ensures due { (g : Seq (Zmod p)) → Negated p d g e.now → Due p d g acc.old s.now from i
        → Due p d g acc.new s.now from (i + 4) }
{
    let skip = from - (i + 4);
    let len = (d - skip).min(acc.len() - from);
    rows::add_rows(
        acc,
        from,
        len,
        &e[skip..],
        rows::word(s, i),
        rows::word(s, 1 + i),
        rows::word(s, 2 + i),
        rows::word(s, 3 + i),
    );
}

// Four power sums from i on, each of which waits for the one before, and then their rows, for those that follow.
fn sums_turn(e: &[u64], d: usize, acc: &mut [u64], s: &mut [u32], i: usize, p: u32)
    requires le_i { (1 ≤ i) × (i + 4 ≤ length s.old) × (length s.old ≤ 257) × (length acc.old ≡ length s.old) × (d + 3 ≤ length e.now) }
    requires p_nonzero { (0 < p) × (p ≤ 2 ^ 28) × Reduced p e.now × ((t : ℕ) → d ≤ t → get_or e.now t 0 ≡ 0) × ReducedTo p s.old i }
    requires by_index { (k : ℕ) → get_or acc.old k 0 ≤ most_due i }
    ensures by_index_2 { ((k : ℕ) → get_or acc.new k 0 ≤ most_due (i + 4)) × ReducedTo p s.new (i + 4) }
    ensures known { (g : Seq (Zmod p)) → Negated p d g e.now → Known p d g acc.old s.old i
        → Known p d g acc.new s.new (i + 4) }
{
    let w = field::reduce(acc[i], p);
    let x = residue(acc[1 + i], w, e[0], 0, 0, 0, 0, p);
    let y = residue(acc[2 + i], w, e[1], x, e[0], 0, 0, p);
    let z = residue(acc[3 + i], w, e[2], x, e[1], y, e[0], p);
    put(s, i, w, x, y, z);
    sums_rows(e, d, acc, s, i, i + 4, p);
}

// The rows of the power sums before `from`, which are known.
fn known_rows(e: &[u64], d: usize, acc: &mut [u64], s: &[u32], from: usize, p: u32)
    requires from_value { (from % 4 ≡ 1) × (from ≤ d + 1) × (from ≤ length acc.old) × (length acc.old ≤ 257) × (d + 3 ≤ length e.now) }
    requires p_nonzero { (0 < p) × (p ≤ 2 ^ 28) × Reduced p e.now × ((t : ℕ) → d ≤ t → get_or e.now t 0 ≡ 0) × ReducedTo p s.now from }
    requires by_index { (k : ℕ) → get_or acc.old k 0 ≤ most_due 1 }
    ensures by_index_2 { (k : ℕ) → get_or acc.new k 0 ≤ most_due from }
    ensures due { (g : Seq (Zmod p)) → Negated p d g e.now → Due p d g acc.old s.now from 1
        → Due p d g acc.new s.now from from }
{
    for i in (1..from).step_by(4) {
        sums_rows(e, d, acc, s, i, from, p);
    }
}

// The turns, from `from` on. (The loop goes by acc, so that of a word that is read back not even its place is known.)
fn sums_turns(e: &[u64], d: usize, acc: &mut [u64], s: &mut [u32], from: usize, p: u32)
    requires from_value { (from % 4 ≡ 1) × (from ≤ length s.old) × (length s.old ≤ 257) × (length s.old % 4 ≡ 1) × (length acc.old ≡ length s.old) }
    requires d_in_bounds { (d + 3 ≤ length e.now) × (0 < p) × (p ≤ 2 ^ 28) × Reduced p e.now × ((t : ℕ) → d ≤ t → get_or e.now t 0 ≡ 0) }
    requires by_index { ((k : ℕ) → get_or acc.old k 0 ≤ most_due from) × ReducedTo p s.old from }
    ensures { (g : Seq (Zmod p)) → Negated p d g e.now → Known p d g acc.old s.old from
        → Known p d g acc.new s.new (length s.old) }
{
    for i in (from..acc.len()).step_by(4) {
        sums_turn(e, d, acc, s, i, p);
    }
}

// s = the power sums of g's roots, each counted twice, where those up to `known` stand there already; e is room for g and acc for the sums.
pub fn power_sums(
    v: Accepted,
    g: &[u32],
    e: &mut [u64],
    acc: &mut [u64],
    s: &mut [u32],
    known: usize,
)
    requires holds_g { HoldsG v.values g.now }
    requires s_len_bound { (length s.old ≤ 257) × (length s.old % 4 ≡ 1) × (length acc.old ≡ length s.old) × (half v.values + 3 ≤ length e.old) }
    requires known_bound { (known ≤ half v.values) × (known < length s.old) × KnownSums v.values g.now s.old known }
    ensures { Residues v.values.p (power_sums_of (Zmod v.values.p) (half v.values) (poly v.values.p g.now)) s.new }
{
    let d = g.len() - 1;
    let p = v.values.p;
    negated(g, e, p);
    weights(e, d, acc);
    s[0] = field::reduce(u64::from(v.values.degree - 1), p);
    let from = known / 4 * 4 + 1;
    known_rows(e, d, acc, s, from, p);
    sums_turns(e, d, acc, s, from, p);
}
