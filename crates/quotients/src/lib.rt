// x^p modulo a monic polynomial g over ℤ/p, for p below 2^28 and a degree of up to 127, by squaring. A square is reduced by two products, where long division
// would wait for a remainder at every step: its quotient by g comes from the inverse of g backwards, a power series that is made once. Slices hold residues,
// the constant term first, as in `poly`; a slice for g has d + 1 words, of which the last is 1.
#![tactic(auto)]

ghost use Rattle.std.specs.Prelude.{◌≡◌, ◌+◌, ◌-◌, ◌*◌, ◌^◌, ◌<◌, ◌≤◌, length, get_or, set, replicate};
ghost use Rattle.series.specs.Series.{conv, sums};
ghost use Rattle.series.specs.Reversal.{shift};
ghost use Rattle.zmod.specs.Zmod.{Zmod};
ghost use Rattle.zmod.specs.Residues.{Reduced, poly, Residues};
ghost use Rattle.rows.specs.Product.{held, ThreeZeros};
ghost use Rattle.modulo.specs.Modulo.{Divisor, RemainderOf};
ghost use Rattle.modulo.specs.Power.{x_to};
ghost use Rattle.quotients.specs.Quotient.{ReversedWords, InverseTo};
ghost use Rattle.quotients.specs.Division.{QuotientTo, DividesBy};

use barrett::Modulus;

// out is a backwards. By its index: a copy and std's `reverse` go over the words twice, some 2 % of a check at ℓ = 127 and 255, and the copy is a call of
// `memmove`, which the library needs for nothing else.
fn reverse(a: &[u32], out: &mut [u32])
    requires { length out.old ≡ length a.now }
    ensures { ReversedWords a.now out.new }
{
    let n = a.len();
    for k in 0..n {
        out[k] = a[n - 1 - k];
    }
}

// out = 1
fn put_one(out: &mut [u32])
    requires { 0 < length out.old }
    ensures { out.new ≡ set (replicate (length out.old) 0) 0 1 }
{
    out.fill(0);
    out[0] = 1;
}

// t = 1 / c as a power series, where c begins with 1: as many coefficients as t has words.
fn invert(c: &[u32], t: &mut [u32], p: u32)
    requires { (1 < p) × (p ≤ 2 ^ 28) × (Reduced p c.now) × (get_or c.now 0 0 ≡ 1) × (0 < length t.old) × (length t.old ≤ 2 ^ 62) }
    ensures { (Reduced p t.new) × InverseTo (Zmod p) (length t.old) (poly p c.now) (poly p t.new) }
{
    put_one(t);
    for k in 1..t.len() {
        let s = poly::coefficient(0, c, t, k, p);
        t[k] = field::negate(s, p);
    }
}

// The quotient of a, of 2n − 1 words, by a g of n words: q has n. t holds the inverse of g backwards; acc and top are room.
fn quotient(a: &[u32], t: &[u64], acc: &mut [u64], top: &mut [u32], q: &mut [u32], m: Modulus)
    requires p_bound { (1 < m.p) × (Reduced m.p a.now) × (Reduced m.p t.now) × ThreeZeros t.now }
    requires q_nonzero { (0 < length q.old) × (length q.old ≤ 252) × (length a.now + 1 ≡ 2 * length q.old) × (length acc.old ≡ length q.old)
        × (length top.old ≡ length q.old) × (length q.old + 3 ≤ length t.now) }
    ensures { (Reduced m.p q.new)
        × QuotientTo m.p (length q.old - 1) t.now a.now q.new }
{
    let d = q.len() - 1;
    reverse(&a[d..], top);
    acc.fill(0);
    rows::add_product(acc, top, t, m.p);
    m.remainders(acc, top);
    reverse(top, q);
}

// r = a − q g, where n holds −g; acc is room.
fn subtract_product(a: &[u32], q: &[u32], n: &[u64], acc: &mut [u64], r: &mut [u32], m: Modulus)
    requires p_bound { (1 < m.p) × (Reduced m.p a.now) × (Reduced m.p q.now) × (Reduced m.p n.now) × ThreeZeros n.now }
    requires q_len_bound { (length q.now ≤ 252) × (length acc.old ≡ length q.now) × (length r.old ≤ length q.now) × (length q.now + 3 ≤ length n.now) }
    ensures { Residues m.p (sums (Zmod m.p) (poly m.p a.now)
        (conv (Zmod m.p) (poly m.p q.now) (held m.p n.now))) r.new }
{
    rows::widen(a, acc);
    rows::add_product(acc, q, n, m.p);
    m.remainders(acc, r);
}

// What divisions by g take, made once: t holds the inverse of g backwards, n holds −g, both behind three zeros; top and q are room.
fn prepare(g: &[u32], t: &mut [u64], n: &mut [u64], top: &mut [u32], q: &mut [u32], p: u32)
    requires { (1 < p) × (p ≤ 2 ^ 28) × (Divisor p g.now) × (length g.now ≤ 2 ^ 62) × (length top.old ≡ length g.now)
        × (length q.old ≡ length g.now) × (length g.now + 3 ≤ length t.old) × (length g.now + 3 ≤ length n.old) }
    ensures { DividesBy p g.now t.new n.new }
{
    reverse(g, top);
    invert(top, q, p);
    rows::put_behind(q, t);
    modulo::negated(g, q, p);
    rows::put_behind(q, n);
}

// r = a modulo g, where g has k words and a has 2k − 1: two products in place of a long division. t and n are prepared for g; acc, top and q are room.
fn divide(
    a: &[u32],
    g: &[u32],
    t: &[u64],
    n: &[u64],
    acc: &mut [u64],
    top: &mut [u32],
    q: &mut [u32],
    r: &mut [u32],
    m: Modulus,
)
    requires p_bound { (1 < m.p) × (Reduced m.p a.now) × (Divisor m.p g.now) × (DividesBy m.p g.now t.now n.now) }
    requires g_len_bound { (length g.now ≤ 252) × (length a.now + 1 ≡ 2 * length g.now) × (length acc.old ≡ length g.now)
        × (length top.old ≡ length g.now) × (length q.old ≡ length g.now) × (length r.old + 1 ≡ length g.now) }
    ensures { RemainderOf m.p (length g.now - 1) (poly m.p g.now) (poly m.p a.now) r.new }
{
    quotient(a, t, acc, top, q, m);
    subtract_product(a, q, n, acc, r, m);
}

// out = x^bit a²; e and acc are room.
fn lifted_square(a: &[u32], bit: usize, e: &mut [u64], acc: &mut [u64], out: &mut [u32], m: Modulus)
    requires reduced { (Reduced m.p a.now) × (bit ≤ 1) × (length a.now ≤ 127) }
    requires out_nonzero { (0 < length out.old) × (length acc.old ≡ length out.old) × (length a.now + 6 ≤ length e.old) }
    ensures { Residues m.p (shift (Zmod m.p) bit (conv (Zmod m.p) (poly m.p a.now) (poly m.p a.now)))
        out.new }
{
    out[0] = 0;
    poly::square(a, e, &mut acc[bit..], &mut out[bit..], m);
}

// r = x^bit r² modulo g, where t and n are prepared for g; all behind them is room. (It is no struct: behind a reference only one field can be lent at a time.)
fn square_modulo(
    r: &mut [u32],
    bit: usize,
    g: &[u32],
    t: &[u64],
    n: &[u64],
    e: &mut [u64],
    acc: &mut [u64],
    room: &mut [u32],
    top: &mut [u32],
    q: &mut [u32],
    m: Modulus,
)
    requires p_bound { (1 < m.p) × (Divisor m.p g.now) × (DividesBy m.p g.now t.now n.now) × (length r.old + 1 ≡ length g.now)
        × (Reduced m.p r.old) × (bit ≤ 1) }
    requires g_len_bound { (length g.now ≤ 128) × (length g.now + 6 ≤ length e.old) × (length room.old + 1 ≡ 2 * length g.now)
        × (length acc.old ≡ length room.old) × (length top.old ≡ length g.now) × (length q.old ≡ length g.now) × (2 ≤ length g.now) }
    ensures { RemainderOf m.p (length g.now - 1) (poly m.p g.now)
        (shift (Zmod m.p) bit (conv (Zmod m.p) (poly m.p r.old) (poly m.p r.old))) r.new }
{
    lifted_square(r, bit, e, acc, room, m);
    let k = g.len();
    divide(room, g, t, n, &mut acc[..k], top, q, r, m);
}

// r = x^p modulo g, by the digits of p from where `modulo::begin` leaves off. All slices but g and r are room.
fn power_in(
    g: &[u32],
    r: &mut [u32],
    t: &mut [u64],
    n: &mut [u64],
    e: &mut [u64],
    acc: &mut [u64],
    room: &mut [u32],
    top: &mut [u32],
    q: &mut [u32],
    m: Modulus,
)
    requires p_bound { (Divisor m.p g.now) × (1 < m.p) × (2 ≤ length g.now) × (length g.now ≤ 128) }
    requires r_len { (length r.old + 1 ≡ length g.now) × (length g.now + 3 ≤ length t.old) × (length g.now + 3 ≤ length n.old)
        × (length g.now + 6 ≤ length e.old) × (length room.old + 1 ≡ 2 * length g.now) × (length acc.old ≡ length room.old)
        × (length top.old ≡ length g.now) × (length q.old ≡ length g.now) }
    ensures { RemainderOf m.p (length g.now - 1) (poly m.p g.now) (x_to m.p m.p) r.new }
{
    prepare(g, t, n, top, q, m.p);
    let first = modulo::begin(r, m.p);
    for i in (0..first).rev() {
        let bit = ((m.p >> i) % 2) as usize;
        square_modulo(r, bit, g, t, n, e, acc, room, top, q, m);
    }
}

// r = x^p modulo g, with room of its own, N words a slice.
pub fn power_of_x<const N: usize>(g: &[u32], r: &mut [u32], m: Modulus)
    requires p_bound { (Divisor m.p g.now) × (1 < m.p) × (2 ≤ length g.now) × (length g.now ≤ 128) }
    requires r_len { (length r.old + 1 ≡ length g.now) × (2 * length g.now + 4 ≤ N) × (N ≤ 264) }
    ensures { RemainderOf m.p (length g.now - 1) (poly m.p g.now) (x_to m.p m.p) r.new }
{
    let k = g.len();
    let c = k + 6;
    let w = 2 * k - 1;
    let mut t = [0u64; N];
    let mut n = [0u64; N];
    let mut e = [0u64; N];
    let mut acc = [0u64; N];
    let mut room = [0u32; N];
    let mut top = [0u32; N];
    let mut q = [0u32; N];
    power_in(
        g,
        r,
        &mut t[..c],
        &mut n[..c],
        &mut e[..c],
        &mut acc[..w],
        &mut room[..w],
        &mut top[..k],
        &mut q[..k],
        m,
    );
}
