// Prints the parts of N for document 01's first marked sheet, as `rules` works them out: the case of E5 in document 02. A line of eight hexadecimal digits
// for each coefficient, the constant term first: four lines for each part, in the order of source document 001's formula (13). That they are document
// 02's numbers is proved, and the output is compared with them.
#![tactic(auto)]

ghost use Rattle.std.specs.Prelude.{◌≡◌, length};
ghost use Rattle.series.specs.Series.{Seq};
ghost use Rattle.zmod.specs.Zmod.{Zmod};
ghost use Rattle.zmod.specs.Residues.{Reduced};
ghost use Rattle.rules.specs.Products.{Products};
ghost use Rattle.text.specs.Text.{hex_lines};
ghost use Rattle.parts.specs.Parts.{Parts, PartsText};

use accepted::Accepted;
use sheet::Values;

// The residues of all coefficients that the three slices have room for.
fn fill(
    v: Accepted,
    square: &[u32],
    slope: &[u32],
    bend: &[u32],
    linear: &mut [u32],
    first: &mut [u32],
    second: &mut [u32],
)
    requires reduced { (Reduced v.values.p square.now) × (Reduced v.values.p slope.now) × (Reduced v.values.p bend.now) }
    requires first_len { (length first.old ≡ length linear.old) × (length second.old ≡ length linear.old) }
    ensures { (g : Seq (Zmod v.values.p)) → Products v.values.p g square.now slope.now bend.now
        → Parts v.values g linear.new first.new second.new }
{
    for k in 0..linear.len() {
        linear[k] = field::reduce(rules::linear_part(v, square, k), v.values.p);
        first[k] = field::reduce(rules::first_logarithmic_part(v, slope, k), v.values.p);
        second[k] = field::reduce(rules::second_logarithmic_part(v, bend, k), v.values.p);
    }
}

// The lines of one part.
fn lines(part: &[u32]) -> [u8; 36]
    requires { length part.now ≡ 4 }
    ensures { result ≡ hex_lines part.now }
{
    let mut text = [0u8; 36];
    text::word_lines(part, &mut text);
    text
}

// The one place that prints. What it asks has `main` proved to hand over nothing but the lines of the marked parts, in this order.
fn print(rt: &HostRuntime, linear: &[u8], first: &[u8], second: &[u8])
    requires { PartsText linear.now first.now second.now }
{
    let mut output = rt.stdout();
    console::write(&mut output, linear);
    console::write(&mut output, first);
    console::write(&mut output, second);
}

fn main(rt: HostRuntime) {
    let v = Accepted::new(Values {
        p: 1009,
        a: 1,
        b: 3,
        atilde: 265,
        btilde: 877,
        degree: 3,
        sigma: 46,
    });
    let g = [986u32, 1];
    let mut square = [0u32; 3];
    let mut slope = [0u32; 2];
    let mut bend = [0u32; 1];
    let mut e = [0u64; 8];
    let mut acc = [0u64; 3];
    let mut h = [0u32; 1];
    let mut q = [0u32; 3];
    numerator::products(
        v,
        &g,
        &mut e,
        &mut acc,
        &mut h,
        &mut q,
        &mut square,
        &mut slope,
        &mut bend,
    );
    let mut linear = [0u32; 4];
    let mut first = [0u32; 4];
    let mut second = [0u32; 4];
    fill(
        v,
        &square,
        &slope,
        &bend,
        &mut linear,
        &mut first,
        &mut second,
    );
    let one = lines(&linear);
    let two = lines(&first);
    let three = lines(&second);
    print(&rt, &one, &two, &three);
}
