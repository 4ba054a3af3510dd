// Products of polynomials by rows: four words of one factor at a time, times all words of the other, are added to sums of 64 bits, which take no remainder
// until all is added. The other factor lies in room of 64-bit words, behind three zeros and before three, so that the four rows have no ends of their own.
#![tactic(auto)]

ghost use Rattle.std.specs.Prelude.{◌≡◌, ◌∷◌, ℕ, ◌+◌, ◌-◌, ◌*◌, ◌^◌, ◌<◌, ◌≤◌, length, get_or, replicate};
ghost use Rattle.slices.specs.Filling.{Filled};
ghost use Rattle.series.specs.Series.{conv, sums};
ghost use Rattle.zmod.specs.Zmod.{Zmod};
ghost use Rattle.zmod.specs.Residues.{Reduced, poly};
ghost use Rattle.rows.specs.Rows.{four_more, row_more, RowsAdded, Four, Twice};
ghost use Rattle.rows.specs.Room.{Above, turns};
ghost use Rattle.rows.specs.Square.{Turned};
ghost use Rattle.rows.specs.Sums.{Sums, ProductSums};
ghost use Rattle.rows.specs.Product.{held, ThreeZeros};

// s + w a + x b + y c + z d
pub fn sum_more(s: u64, w: u64, a: u64, x: u64, b: u64, y: u64, c: u64, z: u64, d: u64) -> u64
    requires w_bound { (w < 2 ^ 32) × (a < 2 ^ 32) × (x < 2 ^ 32) × (b < 2 ^ 32) × (y < 2 ^ 32) × (c < 2 ^ 32) × (z < 2 ^ 32) × (d < 2 ^ 32) }
    requires d_bound { s + w * a + x * b + y * c + z * d < 2 ^ 64 }
    ensures { result ≡ s + w * a + x * b + y * c + z * d }
{
    s + barrett::product(w, a)
        + barrett::product(x, b)
        + barrett::product(y, c)
        + barrett::product(z, d)
}

// out = out + w a + x b + y c + z d, word by word.
pub fn four(
    out: &mut [u64],
    a: &[u64],
    b: &[u64],
    c: &[u64],
    d: &[u64],
    w: u64,
    x: u64,
    y: u64,
    z: u64,
)
    requires out_in_bounds { (length out.old ≤ length a.now) × (length out.old ≤ length b.now)
        × (length out.old ≤ length c.now) × (length out.old ≤ length d.now) }
    requires reduced { (Reduced (2 ^ 32) a.now) × (Reduced (2 ^ 32) b.now) × (Reduced (2 ^ 32) c.now) × (Reduced (2 ^ 32) d.now) }
    requires w_bound { (w < 2 ^ 32) × (x < 2 ^ 32) × (y < 2 ^ 32) × (z < 2 ^ 32) }
    requires by_index { (j : ℕ) → j < length out.old → four_more out.old a.now b.now c.now d.now w x y z j < 2 ^ 64 }
    ensures { Filled (λ j v. v ≡ four_more out.old a.now b.now c.now d.now w x y z j)
        out.new (length out.old) }
{
    for j in 0..out.len() {
        out[j] = sum_more(out[j], w, a[j], x, b[j], y, c[j], z, d[j]);
    }
}

// The same for the words of `acc` from `at` on, `len` of them, and four rows of e: those from 3, 2, 1 and 0 on.
pub fn add_rows(acc: &mut [u64], at: usize, len: usize, e: &[u64], w: u64, x: u64, y: u64, z: u64)
    requires len_in_bounds { (at + len ≤ length acc.old) × (len + 3 ≤ length e.now) × Reduced (2 ^ 32) e.now }
    requires w_bound { (w < 2 ^ 32) × (x < 2 ^ 32) × (y < 2 ^ 32) × (z < 2 ^ 32) }
    requires by_index { (j : ℕ) → j < len → row_more (get_or acc.old (at + j) 0) e.now j w x y z < 2 ^ 64 }
    ensures { RowsAdded acc.old e.now at len w x y z acc.new }
{
    let to = at + len;
    four(&mut acc[at..to], &e[3..], &e[2..], &e[1..], e, w, x, y, z);
}

// The word at i, 0 past the end.
pub fn word<T: From<u32>>(a: &[u32], i: usize) -> T
    ensures { T.from_gives (get_or a.now i 0) result }
{
    T::from(if i < a.len() { a[i] } else { 0 })
}

// out = a, in wider words, with zeros past a's end.
pub fn widen(a: &[u32], out: &mut [u64])
    ensures { Filled (λ j v. v ≡ get_or a.now j 0) out.new (length out.new) }
{
    for k in 0..out.len() {
        out[k] = word(a, k);
    }
}

// Four words from `at` on.
fn put(out: &mut [u64], at: usize, w: u64, x: u64, y: u64, z: u64)
    requires { at + 4 ≤ length out.old }
    ensures { Four out.old at w x y z out.new }
{
    out[at] = w;
    out[at + 1] = x;
    out[at + 2] = y;
    out[at + 3] = z;
}

// The front of `out` is twice a.
fn double(a: &[u32], out: &mut [u64])
    requires { (length a.now ≤ length out.old) × Reduced (2 ^ 31) a.now }
    ensures { Twice a.now out.old out.new (length a.now) }
{
    for k in 0..a.len() {
        out[k] = 2 * u64::from(a[k]);
    }
}

// e = 2a, behind three zeros.
fn prepare(a: &[u32], e: &mut [u64])
    requires { (length a.now + 3 ≤ length e.old) × Reduced (2 ^ 31) a.now }
    ensures { Above a.now 0 e.new }
{
    e.fill(0);
    double(a, &mut e[3..]);
}

// Four words w, x, y, z of a from i on: (w + x t + y t² + z t³) times themselves and twice what is above them is added to the sums from 2i on.
fn square_turn(a: &[u32], i: usize, e: &mut [u64], acc: &mut [u64], p: u32)
    requires i_in_bounds { (i < length a.now) × (2 * i < length acc.old) × (length a.now + 6 ≤ length e.old) }
    requires p_nonzero { (0 < p) × (p ≤ 2 ^ 28) × Reduced p a.now }
    requires above { Above a.now i e.old × ((k : ℕ) → get_or acc.old k 0 + 8 * ((p - 1) * (p - 1)) < 2 ^ 64) }
    ensures { Above a.now (i + 4) e.new × Turned p a.now i acc.old acc.new }
{
    let w = word(a, i);
    let x = word(a, 1 + i);
    let y = word(a, 2 + i);
    let z = word(a, 3 + i);
    put(e, i + 3, w, x, y, z);
    let len = (a.len() - i + 3).min(acc.len() - (i + i));
    add_rows(acc, i + i, len, &e[i..], w, x, y, z);
    put(e, i + 3, 0, 0, 0, 0);
}

// The turns of a square, as long as what is left of a reaches one of the sums.
fn square_turns(a: &[u32], e: &mut [u64], acc: &mut [u64], p: u32)
    requires a_in_bounds { (length a.now + 6 ≤ length e.old) × (length a.now < 2 ^ 60) }
    requires p_nonzero { (0 < p) × (p ≤ 2 ^ 28) × Reduced p a.now × (8 * turns (length a.now) (length acc.old) * p ≤ 2 ^ 36) }
    requires above { Above a.now 0 e.old × (acc.old ≡ replicate (length acc.old) 0) }
    ensures { ProductSums (8 * turns (length a.now) (length acc.old)) p
        (conv (Zmod p) (poly p a.now) (poly p a.now)) acc.new }
{
    for i in (0..a.len()).step_by(4) {
        if acc.len() <= 2 * i {
            return;
        }
        square_turn(a, i, e, acc, p);
    }
}

// The sums of a²: as many as acc has words. e is room.
pub fn square(a: &[u32], e: &mut [u64], acc: &mut [u64], p: u32)
    requires a_in_bounds { (length a.now + 6 ≤ length e.old) × (length a.now < 2 ^ 60) }
    requires p_nonzero { (0 < p) × (p ≤ 2 ^ 28) × Reduced p a.now × (8 * turns (length a.now) (length acc.old) * p ≤ 2 ^ 36) }
    ensures { ProductSums (8 * turns (length a.now) (length acc.old)) p
        (conv (Zmod p) (poly p a.now) (poly p a.now)) acc.new }
{
    prepare(a, e);
    acc.fill(0);
    square_turns(a, e, acc, p);
}

// The word at k of a behind three zeros.
fn behind(a: &[u32], k: usize) -> u64
    ensures { result ≡ get_or (0 ∷ 0 ∷ 0 ∷ a.now) k 0 }
{
    if k < 3 { 0 } else { word(a, k - 3) }
}

// e is a behind three zeros, with zeros after it.
pub fn put_behind(a: &[u32], e: &mut [u64])
    requires { length a.now + 3 ≤ length e.old }
    ensures { ThreeZeros e.new × ((j : ℕ) → get_or e.new (3 + j) 0 ≡ get_or a.now j 0) }
{
    for k in 0..e.len() {
        e[k] = behind(a, k);
    }
}

// acc = acc + a b by rows, where e holds b behind three zeros: as many sums as acc has words. A sum of acc has one product at most.
pub fn add_product(acc: &mut [u64], a: &[u32], e: &[u64], p: u32)
    requires a_in_bounds { (length a.now ≤ length acc.old) × (length acc.old + 3 ≤ length e.now) × (length a.now ≤ 252) × (1 < p) × (p ≤ 2 ^ 28) }
    requires by_index { ((k : ℕ) → get_or acc.old k 0 ≤ (p - 1) * (p - 1)) × (Reduced p a.now) × (Reduced p e.now) × ThreeZeros e.now }
    ensures { Sums p (sums (Zmod p) (poly p acc.old)
        (conv (Zmod p) (poly p a.now) (held p e.now))) acc.new }
{
    for i in (0..a.len()).step_by(4) {
        let len = acc.len() - i;
        let w = word(a, i);
        let x = word(a, 1 + i);
        let y = word(a, 2 + i);
        let z = word(a, 3 + i);
        add_rows(acc, i, len, e, w, x, y, z);
    }
}
