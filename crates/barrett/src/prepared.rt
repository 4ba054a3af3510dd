// A modulus with what remainders by it need, and its remainders over whole slices by products and shifts. P is p shifted to 28 bits. One remainder has no
// comparison and no division by p, and each of its products is of two words, so that the compiler turns the loop of `remainders` into vectors.
ghost use Rattle.std.specs.Prelude.{◌≡◌, ℕ, ◌-◌, ◌*◌, ◌/◌, ◌%◌, ◌^◌, ◌<◌, ◌≤◌, length, get_or};
ghost use Rattle.zmod.specs.Zmod.{mk};
ghost use Rattle.zmod.specs.Residues.{Residue, Residues, poly};

use super::product;

// p, P = p·2^shift with 2^27 ≤ P < 2^28, 2^36 mod P, and (2^59 − 1) / P rounded down. Without the −1 the last would not be a word at P = 2^27; for every
// other P it is the same.
#[derive(Clone, Copy)]
pub struct Modulus {
    pub p: u32,
    pub shift: u32,
    pub big: u64,
    pub fold: u64,
    pub inverse: u64,
    pub ghost shifted: { big ≡ p * 2 ^ shift },
    pub ghost at_least: { 2 ^ 27 ≤ big },
    pub ghost below: { big < 2 ^ 28 },
    pub ghost folded: { fold ≡ 2 ^ 36 % big },
    pub ghost inverted: { inverse ≡ (2 ^ 59 - 1) / big },
}

impl Modulus {
    // Two divisions, for as many remainders as there are to come.
    pub fn new(p: u32) -> Self
        requires { (0 < p) × (p < 2 ^ 28) }
        ensures { result.p ≡ p }
    {
        let shift = u32::leading_zeros(p) - 4;
        let big = u64::from(p) << shift;
        Modulus {
            p,
            shift,
            big,
            fold: 68719476736 % big,
            inverse: 576460752303423487 / big,
        }
    }

    // A smaller number with the same remainder by P: 2^36 is replaced by its remainder.
    fn folded(self, x: u64) -> u64
        ensures { (result % self.big ≡ x % self.big) × (result < 2 ^ 58) }
    {
        product(x >> 36, self.fold) + x % 68719476736
    }

    // The remainder by P, or P more: the quotient by multiplication is at most one too small.
    fn lazy(self, y: u64) -> u64
        requires { y < 2 ^ 58 }
        ensures { (result % self.big ≡ y % self.big) × (result < 2 * self.big) }
    {
        let q = product(y >> 26, self.inverse) >> 33;
        y - product(q, self.big)
    }

    // The remainder by P. A carry into bit 32 says whether P is left to subtract, since a comparison would keep the loop from becoming vectors.
    fn low(self, y: u64) -> u64
        requires { y < 2 ^ 58 }
        ensures { result ≡ y % self.big }
    {
        let r = self.lazy(y);
        let carry = (r + 4294967296 - self.big) >> 32;
        r - product(carry, self.big)
    }

    // The residue of one number. Number and modulus are shifted alike, so the remainder is shifted back.
    pub fn remainder(self, x: u64) -> u32
        requires { x < 2 ^ 36 * self.p }
        ensures { Residue self.p (mk self.p x) result }
    {
        (self.low(self.folded(x << self.shift)) >> self.shift) as u32
    }

    // The same for a number that is small enough without a fold, as a sum of a few products of residues is: a step less in the loops that take such remainders.
    pub fn short_remainder(self, x: u64) -> u64
        requires { x < 2 ^ 30 * self.p }
        ensures { Residue self.p (mk self.p x) result }
    {
        self.low(x << self.shift) >> self.shift
    }

    // out = the residues of the first numbers of xs
    pub fn remainders(self, xs: &[u64], out: &mut [u32])
        requires len_bound { length out.old ≤ length xs.now }
        requires by_index { (i : ℕ) → get_or xs.now i 0 < 2 ^ 36 * self.p }
        ensures { Residues self.p (poly self.p xs.now) out.new }
    {
        for i in 0..out.len() {
            out[i] = self.remainder(xs[i]);
        }
    }
}
