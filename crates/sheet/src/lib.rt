// Sheets: words, kinds and values; the three forms, the table of places, and what a sheet says by them.
#![tactic(auto)]

ghost use Rattle.std.specs.Prelude.{◌≡◌, ◌+◌, ◌-◌, ◌*◌, ◌^◌, ◌<◌, ◌≤◌, map, length, get_or, take, drop};
ghost use Rattle.sheet.specs.declared.Form.TheVariants.{Certificate};
ghost use Rattle.sheet.specs.Word.{kind_of, value_of, word_at, words_of};
ghost use Rattle.sheet.specs.Form.{header, entry, value_in, certificate_words};
ghost use Rattle.sheet.specs.Code.{code};
ghost use Rattle.sheet.specs.Place.{place_of, placed, PlacesOf};
ghost use Rattle.sheet.specs.Values.{values_of, half, coefficient_in};

// The words of the largest certificate, that of degree 255.
pub const MOST_WORDS: usize = 393;

// The form in which a sheet is read.
#[derive(Clone, Copy)]
pub enum Form {
    Question,
    Certificate,
    Kernel,
}

// The values in a sheet's header; 0 and no Option where its form has no such word, since `values_of` in specs/ and the theorems above it read it so.
#[derive(Clone, Copy)]
pub struct Values {
    pub p: u32,
    pub a: u32,
    pub b: u32,
    pub atilde: u32,
    pub btilde: u32,
    pub degree: u32,
    pub sigma: u32,
}

// What a word holds. The top four of its bits are the kind's number.
#[derive(Clone, Copy, Debug, PartialEq, Eq)]
pub enum Kind {
    P = 1,
    A = 2,
    B = 3,
    Atilde = 4,
    Btilde = 5,
    // The degree ℓ.
    Degree = 6,
    Sigma = 7,
    // A coefficient of the kernel polynomial.
    G = 8,
    // A coefficient of the numerator.
    N = 9,
    // The count of rational abscissas.
    Abscissas = 10,
    End = 15,
    // The kinds of no word, for which the table of places answers too.
    Unused0 = 0,
    Unused11 = 11,
    Unused12 = 12,
    Unused13 = 13,
    Unused14 = 14,
}

impl From<Kind> for u32 {
    ghost from_gives = { λ kind n. n ≡ code kind };

    fn from(kind: Kind) -> u32 {
        kind as u32
    }
}

// The kinds of a form's header, in order.
pub fn header(form: Form) -> &'static [Kind]
    ensures { map code result.now ≡ header form }
{
    match form {
        Form::Question | Form::Certificate => &[
            Kind::P,
            Kind::A,
            Kind::B,
            Kind::Atilde,
            Kind::Btilde,
            Kind::Degree,
            Kind::Sigma,
        ],
        Form::Kernel => &[Kind::P, Kind::A, Kind::B, Kind::Degree],
    }
}

// In each of the forms question, certificate, kernel sheet, by the kind's number: the place of its first word at d = 0 and how far each step of d moves it,
// if the form has such a word. The forms come first, so that the part of one form, once it is known, dissolves into constants wherever a place is asked for.
const PLACES: [[Option<(u8, u8)>; 16]; 3] = [
    [
        None, // no kind
        Some((0, 0)), // p
        Some((1, 0)), // A
        Some((2, 0)), // B
        Some((3, 0)), // Ã
        Some((4, 0)), // B̃
        Some((5, 0)), // ℓ
        Some((6, 0)), // σ
        None, // g
        None, // N
        None, // the count
        None, // no kind
        None, // no kind
        None, // no kind
        None, // no kind
        Some((7, 0)), // the end
    ],
    [
        None,
        Some((0, 0)),
        Some((1, 0)),
        Some((2, 0)),
        Some((3, 0)),
        Some((4, 0)),
        Some((5, 0)),
        Some((6, 0)),
        Some((7, 0)),
        Some((8, 1)),
        Some((10, 3)),
        None,
        None,
        None,
        None,
        Some((11, 3)),
    ],
    [
        None,
        Some((0, 0)),
        Some((1, 0)),
        Some((2, 0)),
        None,
        None,
        Some((3, 0)),
        None,
        Some((4, 0)),
        None,
        None,
        None,
        None,
        None,
        None,
        Some((5, 1)),
    ],
];

// A form's part of the table.
fn places_of(form: Form) -> [Option<(u8, u8)>; 16]
    ensures { PlacesOf form result }
{
    match form {
        Form::Question => PLACES[0],
        Form::Certificate => PLACES[1],
        Form::Kernel => PLACES[2],
    }
}

// The place of the first word of a kind in a sheet of degree 2 d + 1, if the form has such a word.
pub fn place(form: Form, kind: Kind, d: usize) -> Option<usize>
    requires { d ≤ 2 ^ 28 }
    ensures { result ≡ placed form (code kind) d }
{
    let (start, rise) = places_of(form)[u32::from(kind) as usize]?;
    Some(usize::from(start) + usize::from(rise) * d)
}

// The kind of a word, as a number: on a sheet it may be that of no kind.
pub fn kind_of(w: u32) -> u32
    ensures { result ≡ kind_of w }
{
    w >> 28
}

pub fn value(w: u32) -> u32
    ensures { result ≡ value_of w }
{
    w % 268435456
}

// What a value on a sheet over p is read as. Nothing is divided where the value is below p already.
fn value_in(form: Form, p: u32, x: u32) -> u32
    requires { 0 < p }
    ensures { result ≡ value_in form p x }
{
    if x < p {
        return x;
    }
    match form {
        Form::Question => x % p,
        Form::Certificate => x,
        Form::Kernel => x % p,
    }
}

// The number in the header's word of a kind; 0 where the form has no such word, or the sheet ends before it.
pub fn entry_of(form: Form, kind: Kind, ws: &[u32]) -> u32
    requires { code kind < 8 }
    ensures { (result ≡ entry form (code kind) ws.now) × (result < 2 ^ 28) }
{
    match place(form, kind, 0) {
        Some(at) if at < ws.len() => value(ws[at]),
        _ => 0,
    }
}

// d = (ℓ − 1)/2
pub fn half_degree(v: Values) -> usize
    ensures { (result ≡ half v) × (result < 2 ^ 31) }
{
    (v.degree.saturating_sub(1) / 2) as usize
}

// The value of a kind on a sheet over p.
fn value_of(form: Form, p: u32, kind: Kind, ws: &[u32]) -> u32
    requires { (0 < p) × (code kind < 8) }
    ensures { result ≡ value_in form p (entry form (code kind) ws.now) }
{
    value_in(form, p, entry_of(form, kind, ws))
}

// The values of a sheet whose p and ℓ have been read.
pub fn values_of(form: Form, p: u32, degree: u32, ws: &[u32]) -> Values
    requires { (0 < p) × (p ≡ entry form 1 ws.now) × (degree ≡ entry form 6 ws.now) }
    ensures { result ≡ values_of form ws.now }
{
    Values {
        p,
        a: value_of(form, p, Kind::A, ws),
        b: value_of(form, p, Kind::B, ws),
        atilde: value_of(form, p, Kind::Atilde, ws),
        btilde: value_of(form, p, Kind::Btilde, ws),
        degree,
        sigma: value_of(form, p, Kind::Sigma, ws),
    }
}

// The coefficients in the words from `from` on of a sheet over p, as many as `out` has room for.
fn coefficients(form: Form, p: u32, ws: &[u32], from: usize, out: &mut [u32])
    requires { (0 < p) × (from + length out.old ≤ length ws.now) }
    ensures { out.new ≡ map (coefficient_in form p) (take (length out.old) (drop from ws.now)) }
{
    for (i, x) in out.iter_mut().enumerate() {
        *x = value_in(form, p, value(ws[from + i]));
    }
}

// The coefficients of g on a sheet over p of degree 2 d + 1, as many as `out` has room for.
pub fn g_coefficients(form: Form, p: u32, ws: &[u32], d: usize, out: &mut [u32])
    requires { (0 < p) × (d ≤ 2 ^ 28) × (length (header form) + length out.old ≤ length ws.now) }
    ensures { out.new ≡ map (coefficient_in form p) (take (length out.old) (drop (length (header form)) ws.now)) }
{
    let end = place(form, Kind::End, d).unwrap();
    let from = place(form, Kind::G, d).unwrap_or(end);
    coefficients(form, p, ws, from, out);
}

// The coefficients of N on a certificate of degree 2 d + 1; p changes none of them there.
pub fn n_coefficients(p: u32, ws: &[u32], d: usize, out: &mut [u32])
    requires { (0 < p) × (d ≤ 2 ^ 28) × (d + 8 + length out.old ≤ length ws.now) }
    ensures { out.new ≡ map (coefficient_in Certificate p) (take (length out.old) (drop (d + 8) ws.now)) }
{
    let from = place(Form::Certificate, Kind::N, d).unwrap();
    coefficients(Form::Certificate, p, ws, from, out);
}

// The count of rational abscissas on a certificate of degree 2 d + 1.
pub fn rational_abscissas(ws: &[u32], d: usize) -> u32
    requires { (d ≤ 2 ^ 28) × (length ws.now ≡ certificate_words d) }
    ensures { (result ≡ value_of (get_or ws.now (place_of Certificate 10 d 0) 0)) × (result < 2 ^ 28) }
{
    value(ws[place(Form::Certificate, Kind::Abscissas, d).unwrap()])
}

// A word from its four bytes, the lowest first.
fn word_at(bytes: &[u8], i: usize) -> u32
    requires { 4 * i + 3 < length bytes.now }
    ensures { result ≡ word_at bytes.now i }
{
    let at = 4 * i;
    u32::from_le_bytes([bytes[at], bytes[at + 1], bytes[at + 2], bytes[at + 3]])
}

// The first words of a run of bytes, as many as `out` has room for.
pub fn load(bytes: &[u8], out: &mut [u32])
    requires { 4 * length out.old ≤ length bytes.now }
    ensures { out.new ≡ take (length out.old) (words_of bytes.now) }
{
    for (i, w) in out.iter_mut().enumerate() {
        *w = word_at(bytes, i);
    }
}
