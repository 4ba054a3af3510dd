// The reader: questions 2 to 7 put to a sheet.
#![tactic(auto)]

ghost use Rattle.std.specs.Prelude.{◌≡◌, ◌^◌, ◌<◌, ◌≤◌, true, ◌↔◌, length};
ghost use Rattle.zmod.specs.Zmod.{Zmod, mk};
ghost use Rattle.zmod.specs.Residues.{Residue};
ghost use Rattle.isogeny.specs.Curve.{discriminant, Nonsingular};
ghost use Rattle.sheet.specs.Code.{code};
ghost use Rattle.sheet.specs.Form.{header};
ghost use Rattle.sheet.specs.Values.{values_of};
ghost use Rattle.sheet.specs.Lengths.{last};
ghost use Rattle.sheet.specs.Asked.{PrimeAllowed, DegreeAllowed, ValuesBelow, Curves, Asked2, Asked6};
ghost use Rattle.reading.specs.Reading.{Right};
ghost use Rattle.reading.specs.Leaf.{Stands, Fits, EachFits, Sections, Bounds};

use questions::Refusal;
use sheet::{Form, Kind, Values};

// Whether the word of a kind is there, if the header has it.
fn has_kind(form: Form, kind: Kind, ws: &[u32]) -> bool
    requires { code kind < 8 }
    ensures { (result ≡ true) ↔ Stands form (code kind) ws.now }
{
    match sheet::place(form, kind, 0) {
        Some(at) => at < ws.len() && sheet::kind_of(ws[at]) == u32::from(kind),
        None => true,
    }
}

// Question 2. The kinds that stand in headers are tried one by one, so that the compiler knows each and has but a choice between the forms for its place.
pub fn headed(form: Form, ws: &[u32]) -> bool
    ensures { (result ≡ true) ↔ Asked2 form ws.now }
{
    let kinds = [
        Kind::P,
        Kind::A,
        Kind::B,
        Kind::Atilde,
        Kind::Btilde,
        Kind::Degree,
        Kind::Sigma,
    ];
    for kind in &kinds {
        if !has_kind(form, *kind, ws) {
            return false;
        }
    }
    true
}

// Question 3.
pub fn prime_allowed(p: u32) -> bool
    ensures { (result ≡ true) ↔ PrimeAllowed p }
{
    if p < 11 {
        return false;
    }
    if 268435456 <= p {
        return false;
    }
    primes::is_prime(p)
}

// Question 4.
pub fn degree_allowed(l: u32, p: u32) -> bool
    ensures { (result ≡ true) ↔ DegreeAllowed l p }
{
    if l % 2 == 0 {
        return false;
    }
    if l < 3 {
        return false;
    }
    if 255 < l {
        return false;
    }
    2 * l - 1 < p
}

// Question 5.
pub fn values_below(v: Values) -> bool
    ensures { (result ≡ true) ↔ ValuesBelow v }
{
    if v.p <= v.a {
        return false;
    }
    if v.p <= v.b {
        return false;
    }
    if v.p <= v.atilde {
        return false;
    }
    if v.p <= v.btilde {
        return false;
    }
    v.sigma < v.p
}

// Question 6 lets a coefficient pass if its value is below this.
fn coefficient_bound(form: Form, p: u32) -> u32
    requires { (0 < p) × (p ≤ 2 ^ 28) }
    ensures { Bounds form p result × (result ≤ 2 ^ 28) }
{
    match form {
        Form::Question => 268435456,
        Form::Certificate => p,
        Form::Kernel => 268435456,
    }
}

// Whether a word is of a kind, with a value below the bound. Where the kind is less the difference wraps to 2^28 or more, so one test does for both.
fn fits(w: u32, kind: Kind, bound: u32) -> bool
    requires { bound ≤ 2 ^ 28 }
    ensures { (result ≡ true) ↔ Fits (code kind) bound w }
{
    w.wrapping_sub(268435456 * u32::from(kind)) < bound
}

// Whether words are of a kind, with values below the bound. No word ends the loop, so that the compiler takes several at a time.
fn section(words: &[u32], kind: Kind, bound: u32) -> bool
    requires { bound ≤ 2 ^ 28 }
    ensures { (result ≡ true) ↔ EachFits (code kind) bound words.now }
{
    let mut all = true;
    for w in words {
        all = all & fits(*w, kind, bound);
    }
    all
}

// Whether the words between the header and the end are of their kinds, with coefficients that are read as values below p. Where the form has no such words,
// the count would stand at the end, N's would begin where the count stands, and g's where N's begin. The count may have any value.
fn sections(form: Form, ws: &[u32], d: usize, end: usize, p: u32) -> bool
    requires { (d ≤ 2 ^ 28) × (end ≡ last form d) × (end < length ws.now) × (0 < p) × (p ≤ 2 ^ 28) }
    ensures { (result ≡ true) ↔ Sections form d (length (header form)) end p ws.now }
{
    let bound = coefficient_bound(form, p);
    let count = sheet::place(form, Kind::Abscissas, d).unwrap_or(end);
    let n = sheet::place(form, Kind::N, d).unwrap_or(count);
    let g = sheet::place(form, Kind::G, d).unwrap_or(n);
    if !section(&ws[g..n], Kind::G, bound) {
        return false;
    }
    if !section(&ws[n..count], Kind::N, bound) {
        return false;
    }
    section(&ws[count..end], Kind::Abscissas, 268435456)
}

// Question 6.
fn exact(form: Form, v: Values, ws: &[u32]) -> bool
    requires { (v ≡ values_of form ws.now) × (v.degree < 2 ^ 28) × (0 < v.p) × (v.p ≤ 2 ^ 28) }
    ensures { (result ≡ true) ↔ Asked6 form ws.now }
{
    let d = sheet::half_degree(v);
    let end = sheet::place(form, Kind::End, d).unwrap();
    if ws.len() != end + 1 {
        return false;
    }
    // kind 15 and value 0, in one comparison
    if ws[end] != 0xF0000000 {
        return false;
    }
    sections(form, ws, d, end, v.p)
}

// The residue of 4 a³ + 27 b². With the squares reduced the sum is below 2^63, so it takes one remainder.
pub fn discriminant_of(a: u32, b: u32, p: u32) -> u32
    requires { (0 < p) × (p ≤ 2 ^ 28) }
    ensures { Residue p (discriminant (Zmod p) (mk p a) (mk p b)) result }
{
    let square = field::multiply(a, a, p);
    let other = field::multiply(b, b, p);
    field::reduce(field::product(4 * square, a) + field::product(27, other), p)
}

pub fn nonsingular(a: u32, b: u32, p: u32) -> bool
    requires { (0 < p) × (p ≤ 2 ^ 28) }
    ensures { (result ≡ true) ↔ Nonsingular (Zmod p) (mk p a) (mk p b) }
{
    discriminant_of(a, b, p) != 0
}

// Question 7: of the domain, and of the codomain where the form has one.
fn curves(form: Form, v: Values) -> bool
    requires { (0 < v.p) × (v.p ≤ 2 ^ 28) }
    ensures { (result ≡ true) ↔ Curves form v }
{
    if !nonsingular(v.a, v.b, v.p) {
        return false;
    }
    if sheet::place(form, Kind::Atilde, 0).is_none() {
        return true;
    }
    nonsingular(v.atilde, v.btilde, v.p)
}

// Questions 2 to 7, in document 01's order: the sheet's values, or the first question that it does not pass.
pub fn read(form: Form, ws: &[u32]) -> Result<Values, Refusal>
    ensures { Right form ws.now result }
{
    if !headed(form, ws) {
        return Err(Refusal::Header);
    }
    let p = sheet::entry_of(form, Kind::P, ws);
    if !prime_allowed(p) {
        return Err(Refusal::Prime);
    }
    let degree = sheet::entry_of(form, Kind::Degree, ws);
    if !degree_allowed(degree, p) {
        return Err(Refusal::Degree);
    }
    let v = sheet::values_of(form, p, degree, ws);
    if !values_below(v) {
        return Err(Refusal::Values);
    }
    if !exact(form, v, ws) {
        return Err(Refusal::Words);
    }
    if !curves(form, v) {
        return Err(Refusal::Singular);
    }
    Ok(v)
}
