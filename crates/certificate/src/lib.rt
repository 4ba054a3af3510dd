// The writer of certificates.
#![tactic(auto)]

ghost use Rattle.std.specs.Prelude.{◌≡◌, ◌+◌, ◌*◌, ◌^◌, ◌<◌, ◌≤◌, ◌++◌, map, length, drop};
ghost use Rattle.std.proofs.Math.Seq.{paste};
ghost use Rattle.zmod.specs.Residues.{Reduced};
ghost use Rattle.sheet.specs.Word.{word};
ghost use Rattle.sheet.specs.Code.{code};
ghost use Rattle.sheet.specs.Ready.{Ready};
ghost use Rattle.certificate.specs.Certificate.{header_words, value_at, Writable, Stored};

use sheet::{Form, Kind, Values};

fn word_of(kind: Kind, value: u32) -> u32
    requires { value < 2 ^ 28 }
    ensures { result ≡ word (code kind) value }
{
    u32::from(kind) * 268435456 + value
}

// The value of a header's word of a kind from 1 on, 0 for a kind of no header.
fn header_value(v: Values, kind: Kind) -> u32
    requires { 1 ≤ code kind }
    ensures { result ≡ value_at v (code kind) }
{
    match kind {
        Kind::P => v.p,
        Kind::A => v.a,
        Kind::B => v.b,
        Kind::Atilde => v.atilde,
        Kind::Btilde => v.btilde,
        Kind::Degree => v.degree,
        Kind::Sigma => v.sigma,
        _ => 0,
    }
}

fn write_header(v: Values, out: &mut [u32])
    requires { (7 ≤ length out.old) × Ready v }
    ensures { out.new ≡ header_words v ++ drop 7 out.old }
{
    for kind in sheet::header(Form::Certificate) {
        let at = sheet::place(Form::Certificate, *kind, 0).unwrap();
        out[at] = word_of(*kind, header_value(v, *kind));
    }
}

// The words of a kind with the values xs, from `from` on.
fn write_section(kind: Kind, xs: &[u32], from: usize, out: &mut [u32])
    requires { (from + length xs.now ≤ length out.old) × Reduced (2 ^ 28) xs.now }
    ensures { out.new ≡ paste out.old from (map (word (code kind)) xs.now) (length xs.now) }
{
    for (i, x) in xs.iter().enumerate() {
        out[from + i] = word_of(kind, *x);
    }
}

// The words of a certificate, to the front of `out`; the rest of it stays. The answer is their count.
pub fn write(v: Values, g: &[u32], n: &[u32], abscissas: u32, out: &mut [u32]) -> usize
    requires { Writable v g.now n.now abscissas (length out.old) }
    ensures { Stored v g.now n.now abscissas out.old out.new result }
{
    let d = sheet::half_degree(v);
    write_header(v, out);
    write_section(
        Kind::G,
        g,
        sheet::place(Form::Certificate, Kind::G, d).unwrap(),
        out,
    );
    write_section(
        Kind::N,
        n,
        sheet::place(Form::Certificate, Kind::N, d).unwrap(),
        out,
    );
    let at = sheet::place(Form::Certificate, Kind::Abscissas, d).unwrap();
    out[at] = word_of(Kind::Abscissas, abscissas);
    let end = sheet::place(Form::Certificate, Kind::End, d).unwrap();
    out[end] = word_of(Kind::End, 0);
    end + 1
}
