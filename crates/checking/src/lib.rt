// Check, and the beginning of every service that takes a certificate: questions 2 to 10, with the coefficients of g and N in lent slices.
#![tactic(auto)]

ghost use Rattle.std.specs.Prelude.{◌≡◌, true, ◌↔◌, ◌+◌, ◌*◌, length};
ghost use Rattle.zmod.specs.Zmod.{Zmod};
ghost use Rattle.zmod.specs.Residues.{poly};
ghost use Rattle.isogeny.specs.Rules.{N, R1};
ghost use Rattle.questions.specs.Questions.{AllYes};
ghost use Rattle.questions.specs.Answers.{Answers};
ghost use Rattle.questions.specs.Number.{outcome};
ghost use Rattle.sheet.specs.declared.Form.TheVariants.{Certificate};
ghost use Rattle.sheet.specs.Values.{values_of, half, question};
ghost use Rattle.sheet.specs.Asked.{asked};
ghost use Rattle.sheet.specs.Ready.{HoldsG, HoldsN};
ghost use Rattle.promises.specs.Abscissas.{rational_abscissas_of};
ghost use Rattle.promises.specs.Asked.{rules_ask};
ghost use Rattle.promises.specs.Answer.{CheckRight};
ghost use Rattle.checking.specs.Passed.{Coefficients, Passed};

use accepted::Accepted;
use questions::Refusal;
use sheet::Form;

// Whether N is that of R2, with room for R2's.
fn same_numerator_in(v: Accepted, g: &[u32], n: &[u32], room: &mut [u32]) -> bool
    requires holds_g { HoldsG v.values g.now }
    requires holds_n { HoldsN v.values n.now × (length room.old ≡ 2 * half v.values + 2) }
    ensures { (result ≡ true) ↔ (poly v.values.p n.now ≡ N (Zmod v.values.p) (question v.values) (poly v.values.p g.now)) }
{
    numerator::numerator(v, g, room);
    poly::equal(n, room)
}

// The same, with room of its own.
fn same_numerator(v: Accepted, g: &[u32], n: &[u32]) -> bool
    requires holds_g { HoldsG v.values g.now }
    requires holds_n { HoldsN v.values n.now }
    ensures { (result ≡ true) ↔ (poly v.values.p n.now ≡ N (Zmod v.values.p) (question v.values) (poly v.values.p g.now)) }
{
    let count = n.len();
    let mut room = [0u32; 256];
    same_numerator_in(v, g, n, &mut room[..count])
}

// Question 9, for a g with R1.
fn numerator_and_count(v: Accepted, g: &[u32], n: &[u32], abscissas: u32) -> bool
    requires holds_g { HoldsG v.values g.now }
    requires holds_n { HoldsN v.values n.now × R1 (Zmod v.values.p) (question v.values) (poly v.values.p g.now) }
    ensures { (result ≡ true) ↔ ((poly v.values.p n.now ≡ N (Zmod v.values.p) (question v.values) (poly v.values.p g.now))
        × (abscissas ≡ rational_abscissas_of v.values g.now)) }
{
    if !same_numerator(v, g, n) {
        return false;
    }
    counting::roots(g, v.modulus) == abscissas
}

// Questions 8 to 10 of g, N and the count of rational abscissas.
fn ask_rules(v: Accepted, g: &[u32], n: &[u32], abscissas: u32) -> Result<(), Refusal>
    requires holds_g { HoldsG v.values g.now }
    requires holds_n { HoldsN v.values n.now }
    ensures { Answers (rules_ask v.values g.now n.now abscissas) (λ _. Unit {0}) (outcome result) }
{
    if !rules::rule_one(v, g) {
        return Err(Refusal::KernelPolynomial);
    }
    if !numerator_and_count(v, g, n, abscissas) {
        return Err(Refusal::Numerator);
    }
    if !equation::rule_three(v, g, n) {
        return Err(Refusal::Equation);
    }
    Ok(())
}

// The coefficients on a certificate that passes 2 to 7, to g and n; and questions 8 to 10.
fn judge(v: Accepted, ws: &[u32], d: usize, g: &mut [u32], n: &mut [u32]) -> Result<(), Refusal>
    requires all_yes { AllYes (asked Certificate ws.now) }
    requires v_value { (v.values ≡ values_of Certificate ws.now) × (d ≡ half v.values) }
    requires g_len { (length g.old ≡ d + 1) × (length n.old ≡ 2 * d + 2) }
    ensures { Coefficients ws.now g.new n.new result }
{
    sheet::g_coefficients(Form::Certificate, v.values.p, ws, d, g);
    sheet::n_coefficients(v.values.p, ws, d, n);
    let abscissas = sheet::rational_abscissas(ws, d);
    ask_rules(v, g, n, abscissas)
}

// Questions 2 to 10. The values of a certificate that passes are the answer, and g and n begin with its coefficients.
pub fn passed(ws: &[u32], g: &mut [u32], n: &mut [u32]) -> Result<Accepted, Refusal>
    requires { (length g.old ≡ 128) × (length n.old ≡ 256) }
    ensures { Passed ws.now g.new n.new result }
{
    let values = reading::read(Form::Certificate, ws)?;
    let v = Accepted::new(values);
    let d = sheet::half_degree(v.values);
    judge(v, ws, d, &mut g[..d + 1], &mut n[..2 * d + 2])?;
    Ok(v)
}

// Whether the words are a certificate; or the first of questions 2 to 10 that they do not pass.
pub fn check(ws: &[u32]) -> Result<(), Refusal>
    ensures { CheckRight ws.now result }
{
    let mut g = [0u32; 128];
    let mut n = [0u32; 256];
    passed(ws, &mut g, &mut n)?;
    Ok(())
}
