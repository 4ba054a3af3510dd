// Kernel: a kernel polynomial's σ and codomain by Vélu's formulas, questions 8 and 11 of a kernel sheet, and its certificate.
#![tactic(auto)]

ghost use Rattle.std.specs.Prelude.{◌≡◌, ◌+◌, ◌^◌, ◌<◌, ◌≤◌, length};
ghost use Rattle.zmod.specs.Zmod.{mk, plus, times, minus};
ghost use Rattle.zmod.specs.Residues.{Residue};
ghost use Rattle.questions.specs.Questions.{AllYes};
ghost use Rattle.sheet.specs.declared.Form.TheVariants.{Kernel};
ghost use Rattle.sheet.specs.Values.{values_of, half};
ghost use Rattle.sheet.specs.Asked.{asked};
ghost use Rattle.sheet.specs.Ready.{HoldsG};
ghost use Rattle.promises.specs.Asked.{Room};
ghost use Rattle.promises.specs.Answer.{KernelRight};
ghost use Rattle.velu.specs.Completed.{Completed, Finished};

use accepted::Accepted;
use questions::Refusal;
use sheet::{Form, Values};

// a - k h
fn less_multiple(a: u32, k: u32, h: u32, p: u32) -> u32
    requires { (a < p) × (p ≤ 2 ^ 28) }
    ensures { Residue p (plus p (mk p a) (minus p (times p (mk p k) (mk p h)))) result }
{
    field::subtract(a, field::multiply(k, h, p), p)
}

// The values with σ, and with the only codomain that can pass, in room for five power sums, one turn, and the expansion up to h₂.
fn completed_in(
    v: Accepted,
    g: &[u32],
    e: &mut [u64],
    acc: &mut [u64],
    s: &mut [u32],
    h: &mut [u32],
) -> Values
    requires holds_g { HoldsG v.values g.now }
    requires e_len { (length e.old ≡ 130) × (length acc.old ≡ 5) × (length s.old ≡ 5) × (length h.old ≡ 3) }
    ensures { Completed v.values g.now result }
{
    power_sums::power_sums(v, g, e, acc, s, 0);
    expansion::expansion(v, s, h, 0);
    let p = v.values.p;
    let second = g.len() - 2;
    let twice = field::multiply(2, g[second], p);
    let atilde = less_multiple(v.values.a, 5, h[1], p);
    let btilde = less_multiple(v.values.b, 7, h[2], p);
    let sigma = field::negate(twice, p);
    Values {
        atilde,
        btilde,
        sigma,
        ..v.values
    }
}

fn completed(v: Accepted, g: &[u32]) -> Values
    requires { HoldsG v.values g.now }
    ensures { Completed v.values g.now result }
{
    let mut e = [0u64; 130];
    let mut acc = [0u64; 5];
    let mut s = [0u32; 5];
    let mut h = [0u32; 3];
    completed_in(v, g, &mut e, &mut acc, &mut s, &mut h)
}

// Questions 8 and 11, and the certificate.
fn finish(v: Accepted, g: &[u32], answer: &mut [u32]) -> Result<u32, Refusal>
    requires holds_g { HoldsG v.values g.now }
    requires room { Room (length answer.old) }
    ensures { Finished v.values g.now answer.old answer.new result }
{
    let top = g.len() - 1;
    if g[top] != 1 {
        return Err(Refusal::KernelPolynomial);
    }
    let w = completed(v, g);
    if !reading::nonsingular(w.atilde, w.btilde, w.p) {
        return Err(Refusal::NoIsogeny);
    }
    certifying::certify(Accepted::new(w), g, answer)
}

// The same with the coefficients read from an accepted sheet, to g.
fn kernel_in(v: Accepted, ws: &[u32], g: &mut [u32], answer: &mut [u32]) -> Result<u32, Refusal>
    requires all_yes { (AllYes (asked Kernel ws.now)) × (v.values ≡ values_of Kernel ws.now) }
    requires g_len { (length g.old ≡ half v.values + 1) × Room (length answer.old) }
    ensures { KernelRight ws.now answer.old answer.new result }
{
    let d = g.len() - 1;
    sheet::g_coefficients(Form::Kernel, v.values.p, ws, d, g);
    finish(v, g, answer)
}

fn kernel_accepted(v: Accepted, ws: &[u32], answer: &mut [u32]) -> Result<u32, Refusal>
    requires all_yes { (AllYes (asked Kernel ws.now)) × (v.values ≡ values_of Kernel ws.now) }
    requires room { Room (length answer.old) }
    ensures { KernelRight ws.now answer.old answer.new result }
{
    let count = sheet::half_degree(v.values) + 1;
    let mut g = [0u32; 128];
    kernel_in(v, ws, &mut g[..count], answer)
}

// The certificate for a kernel sheet, in the answer; or the first of questions 1 to 8 and 11 with a no, and then the answer is as it was.
pub fn kernel(ws: &[u32], answer: &mut [u32]) -> Result<u32, Refusal>
    ensures { KernelRight ws.now answer.old answer.new result }
{
    if answer.len() < sheet::MOST_WORDS {
        return Err(Refusal::Room);
    }
    let v = reading::read(Form::Kernel, ws)?;
    kernel_accepted(Accepted::new(v), ws, answer)
}
