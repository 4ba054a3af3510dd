// Trial division by the entries of a table of primes. A trial tells whether an entry q divides n and is not n itself. A run counts what its trials find and
// goes on behind a divisor, so that the compiler can try several at once. A remainder costs a division, unless q is constant. Where the inverse i of q modulo
// W stands beside q, a product is enough: n i modulo W is n / q where q divides n, and elsewhere so large that its product with q is not below W.
#![tactic(auto)]

ghost use Rattle.std.specs.Prelude.{◌≡◌, ◌↔◌, true, ◌+◌, ◌-◌, ◌*◌, ◌/◌, ◌%◌, ◌^◌, ◌≤◌, ◌<◌, length};
ghost use Rattle.zmod.specs.Prime.{Prime};
ghost use Rattle.trial.specs.Divisors.{Odd, Proper, Undivided, Told, Found};
ghost use Rattle.trial.specs.Table.{PrimesBetween, Pair, Pairs, Whole};

fn divides(n: u32, q: u16) -> u32
    requires { (0 < n) × (0 < q) }
    ensures { Told (Proper q n) result }
{
    let d = u32::from(q);
    if n == d {
        return 0;
    }
    if n % d == 0 { 1 } else { 0 }
}

pub fn by_remainders(n: u32, primes: &[u16]) -> u32
    requires { (0 < n) × (length primes.now < 2 ^ 32) × PrimesBetween 2 64 primes.now }
    ensures { Found n primes.now 0 (length primes.now) result }
{
    let mut found: u32 = 0;
    for q in primes {
        found += divides(n, *q);
    }
    found
}

// By the inverse of q modulo 2^32: a quotient is below 2^22. The divisor itself is not read; the contract speaks of it.
fn divides_by_product(n: u32, q: u16, inverse: u32) -> u32
    requires { (1024 ≤ n) × (n < 2 ^ 28) × Pair (2 ^ 32) 64 1024 q inverse }
    ensures { Told (Proper q n) result }
{
    if n.wrapping_mul(inverse) < 4194304 {
        1
    } else {
        0
    }
}

pub fn by_products(n: u32, primes: &[u16], inverses: &[u32], from: usize) -> u32
    requires le_n { (1024 ≤ n) × (n < 2 ^ 28) × (from ≤ length primes.now) × (length primes.now < 2 ^ 32) }
    requires pairs { Pairs (2 ^ 32) 64 1024 from primes.now inverses.now }
    ensures { Found n primes.now from (length primes.now) result }
{
    let mut found: u32 = 0;
    for j in from..primes.len() {
        found += divides_by_product(n, primes[j], inverses[j]);
    }
    found
}

// The upper half of a product: one instruction for eight of them at once, as the lower half and a difference are.
fn high_half(a: u16, b: u16) -> u16
    ensures { result ≡ (a * b) / 2 ^ 16 }
{
    (u32::from(a) * u32::from(b) / 65536) as u16
}

// By the inverse of q modulo 2^16, in halves. The lower half of the quotient times q has the lower half of n; what is left of the upper half is divided in
// the same way, and gives the upper half of the quotient, which is below 4.
fn divides_by_halves(n: u32, q: u16, inverse: u16) -> u16
    requires { (16384 ≤ n) × (n < 2 ^ 28) × Pair (2 ^ 16) 1024 16384 q inverse }
    ensures { Told (Proper q n) result }
{
    let low = (n % 65536) as u16;
    let high = (n / 65536) as u16;
    let rest = high.wrapping_sub(high_half(low.wrapping_mul(inverse), q));
    if rest.wrapping_mul(inverse) < 4 { 1 } else { 0 }
}

// Apart from `by_products`, with which it shares the loop's three lines alone: one run for both would take the trial as a closure with a contract, and a count
// of a type parameter, since a count wider than the divisors makes the compiler try fewer at once. Divisors and inverses lie in slices of their own: a slice
// of pairs took two and a half times as long.
pub fn by_half_products(n: u32, primes: &[u16], inverses: &[u16], from: usize, to: usize) -> u16
    requires le_n { (16384 ≤ n) × (n < 2 ^ 28) × (from ≤ to) × (to ≤ length primes.now) × (to < from + 2 ^ 16) }
    requires pairs { Pairs (2 ^ 16) 1024 16384 from primes.now inverses.now }
    ensures { Found n primes.now from to result }
{
    let mut found: u16 = 0;
    for j in from..to {
        found += divides_by_halves(n, primes[j], inverses[j]);
    }
    found
}

// From 1031 on, in four blocks of 432 divisors: the square of a divisor is compared once a block.
pub fn by_blocks(n: u32, primes: &[u16], inverses: &[u16]) -> bool
    requires odd { Odd n × (16384 ≤ n) × (n < 2 ^ 28) × Undivided 2 1024 n }
    requires whole { Whole primes.now inverses.now }
    ensures { (result ≡ true) ↔ Prime n }
{
    for i in (171..1899).step_by(432) {
        let q = u32::from(primes[i]);
        if n < q * q {
            return true;
        }
        if by_half_products(n, primes, inverses, i, i + 432) != 0 {
            return false;
        }
    }
    true
}
