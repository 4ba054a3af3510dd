// Name's questions 3, 5 and 7 for one curve, and the j-value.
#![tactic(auto)]

ghost use Rattle.std.specs.Prelude.{◌^◌, ◌<◌, ◌≤◌};
ghost use Rattle.zmod.specs.Zmod.{Zmod, mk};
ghost use Rattle.zmod.specs.Prime.{Prime};
ghost use Rattle.isogeny.specs.Curve.{Nonsingular, JValue};
ghost use Rattle.promises.specs.Asked.{name_asks};
ghost use Rattle.promises.specs.Answer.{NameRight};
ghost use Rattle.questions.specs.Answers.{Answers};
ghost use Rattle.questions.specs.Number.{outcome};

use questions::Refusal;

// Questions 3, 5 and 7.
fn curve_allowed(p: u32, a: u32, b: u32) -> Result<(), Refusal>
    ensures { Answers (name_asks p a b) (λ _. Unit {0}) (outcome result) }
{
    if !reading::prime_allowed(p) {
        return Err(Refusal::Prime);
    }
    if p <= a {
        return Err(Refusal::Values);
    }
    if p <= b {
        return Err(Refusal::Values);
    }
    if !reading::nonsingular(a, b, p) {
        return Err(Refusal::Singular);
    }
    Ok(())
}

// 1728 · 4a³ / (4a³ + 27b²)
fn j_value(p: u32, a: u32, b: u32) -> u32
    requires prime { Prime p }
    requires p_bound { p ≤ 2 ^ 28 }
    requires nonsingular { Nonsingular (Zmod p) (mk p a) (mk p b) }
    ensures { (result < p) × JValue (Zmod p) (mk p a) (mk p b) (mk p result) }
{
    let divisor = reading::discriminant_of(a, b, p);
    let inverse = field::inverse(divisor, p);
    let square = field::multiply(a, a, p);
    let cube = field::multiply(square, a, p);
    let dividend = field::multiply(1728, field::multiply(4, cube, p), p);
    field::multiply(dividend, inverse, p)
}

pub fn name(p: u32, a: u32, b: u32) -> Result<u32, Refusal>
    ensures { NameRight p a b result }
{
    curve_allowed(p, a, b)?;
    Ok(j_value(p, a, b))
}
