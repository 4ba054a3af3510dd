// Compose: the certificate of one map followed by another. It begins twice as check does and ends as solve and kernel do. R3 is not evaluated: the composite of
// two maps that meet the rules meets them.
#![tactic(auto)]

ghost use Rattle.std.specs.Prelude.{◌≡◌, true, ◌↔◌, ◌+◌, ◌*◌, length};
ghost use Rattle.questions.specs.Questions.{AllYes};
ghost use Rattle.sheet.specs.declared.Form.TheVariants.{Certificate};
ghost use Rattle.sheet.specs.Values.{values_of, half, gOf, n_of};
ghost use Rattle.promises.specs.Asked.{Room, ComposableValues, ProductAllowed, check_asks};
ghost use Rattle.promises.specs.Answer.{composed, ComposeRight};
ghost use Rattle.composing.specs.Joined.{Joined, Composed};

use accepted::Accepted;
use questions::Refusal;
use sheet::Values;

// Question 13.
fn meet(v: Values, w: Values) -> bool
    ensures { (result ≡ true) ↔ ComposableValues v w }
{
    if v.p != w.p {
        return false;
    }
    if v.atilde != w.a {
        return false;
    }
    v.btilde == w.b
}

// Question 14.
fn product_allowed(v: Accepted, w: Accepted) -> bool
    ensures { (result ≡ true) ↔ ProductAllowed v.values w.values }
{
    let l = v.values.degree * w.values.degree;
    if 255 < l {
        return false;
    }
    2 * l - 1 < v.values.p
}

// The values of the composite.
fn composite_values(v: Accepted, w: Accepted) -> Values
    ensures { result ≡ composed v.values w.values }
{
    let degree = v.values.degree * w.values.degree;
    let sum = u64::from(w.values.sigma) + field::product(w.values.degree, v.values.sigma);
    let sigma = field::reduce(sum, v.values.p);
    Values {
        atilde: w.values.atilde,
        btilde: w.values.btilde,
        degree,
        sigma,
        ..v.values
    }
}

// The certificate of the composite of two maps that meet, in room for its g and its N.
fn compose_in(
    v: Accepted,
    w: Accepted,
    g1: &[u32],
    n1: &[u32],
    g2: &[u32],
    g: &mut [u32],
    n: &mut [u32],
    answer: &mut [u32],
) -> Result<u32, Refusal>
    requires joined { Joined v.values w.values g1.now n1.now g2.now }
    requires g_len { (length g.old ≡ half (composed v.values w.values) + 1) × (length n.old ≡ 2 * half (composed v.values w.values) + 2)
        × Room (length answer.old) }
    ensures { Composed v.values w.values g1.now g2.now answer.old answer.new result }
{
    let u = Accepted::new(composite_values(v, w));
    substitution::composite(n1, g1, g2, g, u.modulus);
    numerator::numerator(u, g, n);
    certifying::finish(u, g, n, true, answer)
}

// The same, with room of its own.
fn compose_joined(
    v: Accepted,
    w: Accepted,
    g1: &[u32],
    n1: &[u32],
    g2: &[u32],
    answer: &mut [u32],
) -> Result<u32, Refusal>
    requires joined { Joined v.values w.values g1.now n1.now g2.now }
    requires room { Room (length answer.old) }
    ensures { Composed v.values w.values g1.now g2.now answer.old answer.new result }
{
    let count = sheet::half_degree(composite_values(v, w)) + 1;
    let twice = 2 * count;
    let mut g = [0u32; 128];
    let mut n = [0u32; 256];
    compose_in(v, w, g1, n1, g2, &mut g[..count], &mut n[..twice], answer)
}

// Questions 13 and 14, and the certificate, for two certificates that pass, with their coefficients.
fn compose_passed(
    v: Accepted,
    w: Accepted,
    first: &[u32],
    second: &[u32],
    g1: &[u32],
    n1: &[u32],
    g2: &[u32],
    answer: &mut [u32],
) -> Result<u32, Refusal>
    requires all_yes { (AllYes (check_asks first.now)) × (v.values ≡ values_of Certificate first.now) }
    requires all_yes_2 { (AllYes (check_asks second.now)) × (w.values ≡ values_of Certificate second.now) }
    requires g1_value { (g1.now ≡ gOf Certificate first.now) × (n1.now ≡ n_of Certificate first.now) × (g2.now ≡ gOf Certificate second.now) }
    requires room { Room (length answer.old) }
    ensures { ComposeRight first.now second.now answer.old answer.new result }
{
    if !meet(v.values, w.values) {
        return Err(Refusal::Joint);
    }
    if !product_allowed(v, w) {
        return Err(Refusal::Product);
    }
    compose_joined(v, w, g1, n1, g2, answer)
}

// Questions 2 to 10 of the second certificate, and what follows them, for a first one that passes.
fn compose_second(
    v: Accepted,
    first: &[u32],
    second: &[u32],
    g1: &[u32],
    n1: &[u32],
    answer: &mut [u32],
) -> Result<u32, Refusal>
    requires all_yes { (AllYes (check_asks first.now)) × (v.values ≡ values_of Certificate first.now) }
    requires g1_value { (g1.now ≡ gOf Certificate first.now) × (n1.now ≡ n_of Certificate first.now) }
    requires room { Room (length answer.old) }
    ensures { ComposeRight first.now second.now answer.old answer.new result }
{
    let mut g2 = [0u32; 128];
    let mut n2 = [0u32; 256];
    let w = checking::passed(second, &mut g2, &mut n2)?;
    let d = sheet::half_degree(w.values);
    compose_passed(v, w, first, second, g1, n1, &g2[..d + 1], answer)
}

// The certificate of the composite, first the first map and then the second, in the answer; or the first no among the questions 1, 2 to 10 of the
// first certificate, 2 to 10 of the second, 13 and 14, and then the answer is as it was.
pub fn compose(first: &[u32], second: &[u32], answer: &mut [u32]) -> Result<u32, Refusal>
    ensures { ComposeRight first.now second.now answer.old answer.new result }
{
    if answer.len() < sheet::MOST_WORDS {
        return Err(Refusal::Room);
    }
    let mut g1 = [0u32; 128];
    let mut n1 = [0u32; 256];
    let v = checking::passed(first, &mut g1, &mut n1)?;
    let d = sheet::half_degree(v.values);
    compose_second(v, first, second, &g1[..d + 1], &n1[..2 * d + 2], answer)
}
