// Primality of the numbers below 2^28 by trial division. 2 is tried apart; the other divisors stand in a constant table, which has every odd prime below
// 2^14, smallest first. There are three runs: those below 2^6, below 2^10 and below 2^14. An n that none below such a bound divides is a prime if the
// bound's square is above n. The compiler stores a constant array on the stack where it is lent, unless all of it dissolves into constants, so the whole
// table is lent in one place alone, which small numbers and most composite ones do not reach.
#![tactic(auto)]

mod inverses;
mod table;

ghost use Rattle.std.specs.Prelude.{◌≡◌, ◌↔◌, true, ◌^◌, ◌≤◌, ◌<◌};
ghost use Rattle.zmod.specs.Prime.{Prime};
ghost use Rattle.trial.specs.Divisors.{Odd, Undivided};

// 17 remainders by constants, which the compiler makes products of.
fn undivided_to_61(n: u32) -> bool
    requires { 0 < n }
    ensures { (result ≡ true) ↔ Undivided 2 64 n }
{
    trial::by_remainders(n, &table::PRIMES[..17]) == 0
}

// 154 products modulo 2^32.
fn undivided_to_1021(n: u32) -> bool
    requires { (1024 ≤ n) × (n < 2 ^ 28) × Undivided 2 64 n }
    ensures { (result ≡ true) ↔ Undivided 2 1024 n }
{
    trial::by_products(n, &table::PRIMES[..171], &inverses::WIDE, 17) == 0
}

// 1,728 divisors by products modulo 2^16.
fn undivided_to_16381(n: u32) -> bool
    requires { Odd n × (16384 ≤ n) × (n < 2 ^ 28) × Undivided 2 1024 n }
    ensures { (result ≡ true) ↔ Prime n }
{
    trial::by_blocks(n, &table::PRIMES, &inverses::NARROW)
}

pub fn is_prime(n: u32) -> bool
    requires { n < 2 ^ 28 }
    ensures { (result ≡ true) ↔ Prime n }
{
    if n < 2 {
        return false;
    }
    if n % 2 == 0 {
        return n == 2;
    }
    if !undivided_to_61(n) {
        return false;
    }
    if n < 4096 {
        return true;
    }
    if !undivided_to_1021(n) {
        return false;
    }
    if n < 1048576 {
        return true;
    }
    undivided_to_16381(n)
}
