// x^p modulo a monic polynomial g of small degree d over ℤ/p, for p below 2^28. x^d, .., x^(2d − 1) modulo g are made once, the rows of a table, and the upper
// half of each square is folded back by them: its lower half stays as sums, to which multiples of the rows are added before any remainder. Slices hold
// residues, the constant term first, as in `poly`; where g is x^d − n, it is given by n, which has d words.
#![tactic(auto)]

ghost use Rattle.std.specs.Prelude.{◌≡◌, ℕ, ◌+◌, ◌-◌, ◌*◌, ◌^◌, ◌<◌, ◌≤◌, length, get_or};
ghost use Rattle.slices.specs.Filling.{Filled};
ghost use Rattle.series.specs.Series.{Seq, conv, sums, scaled};
ghost use Rattle.series.specs.Indeterminate.{ind};
ghost use Rattle.series.specs.Reversal.{shift};
ghost use Rattle.zmod.specs.Zmod.{Zmod, mk, plus, times};
ghost use Rattle.zmod.specs.Residues.{Residue, Reduced, poly, Residues};
ghost use Rattle.rows.specs.Sums.{Sums, ProductSums};
ghost use Rattle.modulo.specs.Modulo.{Divisor, RemainderOf};
ghost use Rattle.modulo.specs.Power.{x_to};
ghost use Rattle.folding.specs.Combination.{combination};
ghost use Rattle.folding.specs.Table.{Table, BegunTable, monic_of, rows};
ghost use Rattle.folding.specs.Fold.{fold_more};

use barrett::Modulus;

// x + c y
fn plus_multiple(x: u32, c: u32, y: u32, m: Modulus) -> u32
    requires { (x < m.p) × (c < m.p) × (y < m.p) }
    ensures { Residue m.p (plus m.p (mk m.p x) (times m.p (mk m.p c) (mk m.p y))) result }
{
    m.remainder(u64::from(x) + field::product(c, y))
}

// out = out + c a, as `poly::add_scaled`, but with remainders of which the compiler makes vectors.
fn add_reduced(out: &mut [u32], a: &[u32], c: u32, m: Modulus)
    requires len_bound { (length out.old ≤ length a.now) × (c < m.p) }
    requires reduced { (Reduced m.p out.old) × (Reduced m.p a.now) }
    ensures { Residues m.p (sums (Zmod m.p) (poly m.p out.old)
        (scaled (Zmod m.p) (mk m.p c) (poly m.p a.now))) out.new }
{
    for k in 0..out.len() {
        out[k] = plus_multiple(out[k], c, a[k], m);
    }
}

// r = x r, without what that moves past the end
fn shift_up(r: &mut [u32])
    ensures { (p : ℕ) → Reduced p r.old → Residues p (conv (Zmod p) (ind (Zmod p)) (poly p r.old)) r.new }
{
    let mut c = 0;
    for k in 0..r.len() {
        let next = r[k];
        r[k] = c;
        c = next;
    }
}

// r = x r modulo x^d − n
fn times_x(r: &mut [u32], n: &[u32], m: Modulus)
    requires { (0 < length n.now) × (length r.old ≡ length n.now) × (Reduced m.p r.old) × (Reduced m.p n.now) }
    ensures { RemainderOf m.p (length n.now) (monic_of m.p n.now)
        (conv (Zmod m.p) (ind (Zmod m.p)) (poly m.p r.old)) r.new }
{
    let top = r[r.len() - 1];
    shift_up(r);
    add_reduced(r, n, top, m);
}

// Row i of the table, where those before it are there and r is x^(d + i); r goes on to the next power.
#[tactic(auto, using(crate::specs::Table::row_inside))]
fn fill_row(r: &mut [u32], n: &[u32], t: &mut [u64], i: usize, m: Modulus)
    requires i_bound { (i < length n.now) × (length r.old ≡ length n.now)
        × (length t.old ≡ length n.now * (length n.now + 3)) × (Reduced m.p n.now) }
    requires begun_table { (BegunTable m.p n.now i t.old)
        × (RemainderOf m.p (length n.now) (monic_of m.p n.now) (x_to m.p (length n.now + i)) r.old) }
    ensures { (BegunTable m.p n.now (i + 1) t.new)
        × (RemainderOf m.p (length n.now) (monic_of m.p n.now)
        (x_to m.p (length n.now + (i + 1))) r.new) }
{
    let at = i * n.len();
    let to = at + n.len();
    rows::widen(r, &mut t[at..to]);
    times_x(r, n, m);
}

// The table of x^d − n: x^d, .., x^(2d − 1), and three rows of zeros, so that rows of four have no end of their own. r is room.
#[tactic(auto, using(crate::specs::Table::row_inside))]
fn fill(r: &mut [u32], n: &[u32], t: &mut [u64], m: Modulus)
    requires { (length r.old ≡ length n.now)
        × (length t.old ≡ length n.now * (length n.now + 3)) × (Reduced m.p n.now) }
    ensures { (Reduced m.p t.new)
        × (Table m.p (length n.now) (monic_of m.p n.now) (length n.now) t.new) }
{
    let d = n.len();
    t[d * d..].fill(0);
    r.copy_from_slice(n);
    for i in 0..d {
        fill_row(r, n, t, i, m);
    }
}

// acc = acc + q_i T_0 + q_(i + 1) T_1 + .., where T_0, .., T_3 are the first rows of t.
fn fold_four(acc: &mut [u64], q: &[u32], i: usize, t: &[u64], p: u32)
    requires i_bound { (i < 2 ^ 32) × (4 * length acc.old ≤ length t.now) × (p ≤ 2 ^ 28) × (Reduced p q.now) × (Reduced p t.now) }
    requires by_index { (k : ℕ) → get_or acc.old k 0 + 4 * ((p - 1) * (p - 1)) < 2 ^ 64 }
    ensures { Filled (λ k v. v ≡ fold_more (length acc.old) acc.old q.now t.now i k)
        acc.new (length acc.old) }
{
    let d = acc.len();
    let w = rows::word(q, i);
    let x = rows::word(q, 1 + i);
    let y = rows::word(q, 2 + i);
    let z = rows::word(q, 3 + i);
    rows::four(acc, t, &t[d..], &t[2 * d..], &t[3 * d..], w, x, y, z);
}

// acc = acc + q_0 T_0 + q_1 T_1 + .., where T_i are the rows of t: at most 16 products a word, next to the 32 that a square has.
#[tactic(auto, using(crate::specs::Table::row_inside))]
fn fold(acc: &mut [u64], q: &[u32], t: &[u64], p: u32)
    requires q_len { (length q.now ≡ length acc.old) × (length acc.old ≤ 15) × (length t.now ≡ length acc.old * (length acc.old + 3)) }
    requires p_bound { (p ≤ 2 ^ 28) × (Reduced p q.now) × (Reduced p t.now) × ((k : ℕ) → get_or acc.old k 0 ≤ 32 * ((p - 1) * (p - 1))) }
    ensures { Sums p (sums (Zmod p) (poly p acc.old) (combination (Zmod p) (length acc.old)
        (poly p q.now) (rows p (length acc.old) t.now))) acc.new }
{
    let d = acc.len();
    for i in (0..d).step_by(4) {
        fold_four(acc, q, i, &t[i * d..], p);
    }
}

// r = acc modulo g, where acc holds 2d sums and t is the table of g. q is room.
fn remainder(acc: &mut [u64], q: &mut [u32], t: &[u64], r: &mut [u32], m: Modulus)
    requires r_len_bound { (length r.old ≤ 15) × (length acc.old ≡ length r.old + length r.old) × (length q.old ≡ length r.old)
        × (length t.now ≡ length r.old * (length r.old + 3)) }
    requires reduced { (Reduced m.p t.now) × ((k : ℕ) → get_or acc.old k 0 ≤ 32 * ((m.p - 1) * (m.p - 1))) }
    ensures { (g : Seq (Zmod m.p)) → Table m.p (length r.old) g (length r.old) t.now
        → RemainderOf m.p (length r.old) g (poly m.p acc.old) r.new }
{
    let d = r.len();
    m.remainders(&acc[d..], q);
    fold(&mut acc[..d], q, t, m.p);
    m.remainders(&acc[..d], r);
}

// The sums of x^bit r², twice as many as r has words. e is room.
fn square_sums(r: &[u32], bit: usize, e: &mut [u64], acc: &mut [u64], p: u32)
    requires bit_bound { (bit ≤ 1) × (0 < length r.now) × (length r.now ≤ 15) × (length acc.old ≡ length r.now + length r.now)
        × (length r.now + 6 ≤ length e.old) }
    requires p_nonzero { (0 < p) × (p ≤ 2 ^ 28) × (Reduced p r.now) }
    ensures { ProductSums 32 p (shift (Zmod p) bit (conv (Zmod p) (poly p r.now) (poly p r.now))) acc.new }
{
    acc[0] = 0;
    rows::square(r, e, &mut acc[bit..], p);
}

// r = x^bit r² modulo g, where t is the table of g; all behind t is room. (The room is no struct: behind a reference only one field can be lent at a time.)
fn square_modulo(
    r: &mut [u32],
    bit: usize,
    t: &[u64],
    e: &mut [u64],
    acc: &mut [u64],
    q: &mut [u32],
    m: Modulus,
)
    requires bit_bound { (bit ≤ 1) × (0 < length r.old) × (length r.old ≤ 15) × (length acc.old ≡ length r.old + length r.old)
        × (length q.old ≡ length r.old) × (length r.old + 6 ≤ length e.old) × (length t.now ≡ length r.old * (length r.old + 3)) }
    requires reduced { (Reduced m.p r.old) × (Reduced m.p t.now) }
    ensures { (g : Seq (Zmod m.p)) → Table m.p (length r.old) g (length r.old) t.now
        → RemainderOf m.p (length r.old) g
        (shift (Zmod m.p) bit (conv (Zmod m.p) (poly m.p r.old) (poly m.p r.old))) r.new }
{
    square_sums(r, bit, e, acc, m.p);
    remainder(acc, q, t, r, m);
}

// t = the table of g. r and n are room.
fn prepare(g: &[u32], r: &mut [u32], n: &mut [u32], t: &mut [u64], m: Modulus)
    requires { (Divisor m.p g.now) × (length r.old ≡ length g.now - 1) × (length n.old ≡ length r.old)
        × (length t.old ≡ length r.old * (length r.old + 3)) }
    ensures { (Reduced m.p t.new)
        × (Table m.p (length r.old) (poly m.p g.now) (length r.old) t.new) }
{
    modulo::negated(g, n, m.p);
    fill(r, n, t, m);
}

// r = x^p modulo g, by the digits of p from where `modulo::begin` leaves off. All slices but g and r are room.
fn power_in(
    g: &[u32],
    r: &mut [u32],
    n: &mut [u32],
    q: &mut [u32],
    t: &mut [u64],
    e: &mut [u64],
    acc: &mut [u64],
    m: Modulus,
)
    requires p_bound { (1 < m.p) × (Divisor m.p g.now) × (2 ≤ length g.now) × (length g.now ≤ 16) }
    requires r_len { (length r.old ≡ length g.now - 1) × (length n.old ≡ length r.old) × (length q.old ≡ length r.old)
        × (length t.old ≡ length r.old * (length r.old + 3)) × (length r.old + 6 ≤ length e.old)
        × (length acc.old ≡ length r.old + length r.old) }
    ensures { RemainderOf m.p (length g.now - 1) (poly m.p g.now) (x_to m.p m.p) r.new }
{
    prepare(g, r, n, t, m);
    let top = modulo::begin(r, m.p);
    for i in (0..top).rev() {
        square_modulo(r, ((m.p >> i) % 2) as usize, t, e, acc, q, m);
    }
}

// r = x^p modulo g, with room of its own.
pub fn power_of_x(g: &[u32], r: &mut [u32], m: Modulus)
    requires p_bound { (1 < m.p) × (Divisor m.p g.now) × (2 ≤ length g.now) × (length g.now ≤ 16) }
    requires r_len { length r.old ≡ length g.now - 1 }
    ensures { RemainderOf m.p (length g.now - 1) (poly m.p g.now) (x_to m.p m.p) r.new }
{
    let d = r.len();
    let rows = d * (d + 3);
    let some = d + 6;
    let sums = d + d;
    let mut n = [0u32; 15];
    let mut q = [0u32; 15];
    let mut t = [0u64; 270];
    let mut e = [0u64; 21];
    let mut acc = [0u64; 30];
    power_in(
        g,
        r,
        &mut n[..d],
        &mut q[..d],
        &mut t[..rows],
        &mut e[..some],
        &mut acc[..sums],
        m,
    );
}
