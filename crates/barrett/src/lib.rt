// Remainders by products and shifts, for a p that is prepared once.
#![tactic(auto)]

ghost use Rattle.std.specs.Prelude.{◌≡◌, ◌*◌, ◌^◌, ◌<◌};

mod prepared;

pub use prepared::Modulus;

// The remainders by 2^32 change nothing; they show the compiler that it multiplies words.
pub fn product(a: u64, b: u64) -> u64
    requires { (a < 2 ^ 32) × (b < 2 ^ 32) }
    ensures { result ≡ a * b }
{
    (a % 4294967296) * (b % 4294967296)
}
