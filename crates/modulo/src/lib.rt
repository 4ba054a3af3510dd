// What both ways to x^p modulo a monic g over ℤ/p share, for p below 2^28: the power of x that squaring begins with, and −a. Slices hold residues, the
// constant term first, as in `poly`.
#![tactic(auto)]

ghost use Rattle.std.specs.Prelude.{◌/◌, ◌^◌, ◌<◌, ◌≤◌, length};
ghost use Rattle.series.specs.Series.{Seq, negs};
ghost use Rattle.zmod.specs.Zmod.{Zmod};
ghost use Rattle.zmod.specs.Residues.{Reduced, poly, Residues};
ghost use Rattle.modulo.specs.Modulo.{RemainderOf};
ghost use Rattle.modulo.specs.Power.{x_to};

// out = -a
pub fn negated(a: &[u32], out: &mut [u32], p: u32)
    requires { (length out.old ≤ length a.now) × (Reduced p a.now) }
    ensures { Residues p (negs (Zmod p) (poly p a.now)) out.new }
{
    for k in 0..out.len() {
        out[k] = field::negate(a[k], p);
    }
}

// A place of p's binary digits, such that those from it up are a number below d: the lowest one, as all below it take a squaring each.
fn leading_below(d: usize, p: u32) -> u32
    requires { (0 < d) × (0 < p) × (p < 2 ^ 28) }
    ensures { (result ≤ 28) × (p / 2 ^ result < d) }
{
    for i in (0..32 - u32::leading_zeros(p)).rev() {
        let more = (p >> i) as usize;
        if d <= more {
            return i + 1;
        }
    }
    0
}

// r = x to the power of p's first digits, as far as these are below the number of r's words, so that it is its own remainder by any longer polynomial. The
// result is the place of the last of them.
pub fn begin(r: &mut [u32], p: u32) -> u32
    requires { (0 < length r.old) × (1 < p) × (p < 2 ^ 28) }
    ensures { (result ≤ 28) × ((g : Seq (Zmod p)) → RemainderOf p (length r.old) g (x_to p (p / 2 ^ result)) r.new) }
{
    let i = leading_below(r.len(), p);
    let k = (p >> i) as usize;
    r.fill(0);
    r[k] = 1;
    i
}
