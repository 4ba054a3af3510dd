// Question 12, and the image of a point of the domain under the g and N of a certificate.
#![tactic(auto)]

ghost use Rattle.std.specs.Prelude.{◌≡◌, true, ◌↔◌, ◌+◌, ◌^◌, ◌<◌, ◌≤◌, min, length};
ghost use Rattle.ring.specs.Ring.{pow};
ghost use Rattle.zmod.specs.Zmod.{Zmod, mk, plus, times};
ghost use Rattle.zmod.specs.Residues.{Residue};
ghost use Rattle.questions.specs.Questions.{AllYes};
ghost use Rattle.sheet.specs.declared.Form.TheVariants.{Certificate};
ghost use Rattle.sheet.specs.Values.{values_of, gOf, n_of};
ghost use Rattle.sheet.specs.Ready.{HoldsG, HoldsN};
ghost use Rattle.promises.specs.Asked.{OnDomain, check_asks};
ghost use Rattle.promises.specs.Answer.{PushRight};
ghost use Rattle.pushing.specs.Pushed.{slope_of, Pushed};

use accepted::Accepted;
use evaluation::Jet;
use promises::Point;
use questions::Refusal;

// x³ + a x + b
fn cubic(a: u32, b: u32, x: u32, p: u32) -> u32
    requires { (a < p) × (b < p) × (p ≤ 2 ^ 28) }
    ensures { Residue p (plus p (plus p (pow (Zmod p) (mk p x) 3) (times p (mk p a) (mk p x))) (mk p b)) result }
{
    let square = field::multiply(x, x, p);
    let slope = field::add(square, a, p);
    field::add(field::multiply(slope, x, p), b, p)
}

// Question 12 of an affine point.
fn within(v: Accepted, x: u32, y: u32) -> bool
    ensures { (result ≡ true) ↔ OnDomain v.values x y }
{
    let p = v.values.p;
    if p <= x {
        return false;
    }
    if p <= y {
        return false;
    }
    field::multiply(y, y, p) == cubic(v.values.a, v.values.b, x, p)
}

// N'g − 2Ng' at a point, from g, g', N and N' there.
fn slope(g: Jet, n: Jet, p: u32) -> u32
    requires { (p ≤ 2 ^ 28) × (g.value < p) × (g.slope < p) × (n.value < p) × (n.slope < p) }
    ensures { Residue p (slope_of p g n) result }
{
    let minus = 2 * (p - n.value);
    field::reduce(
        field::product(n.slope, g.value) + field::product(minus, g.slope),
        p,
    )
}

// Where the point (x, y) goes, in room for the tables of x. One inverse serves for both quotients; by powers it would take most of the time over large
// primes.
fn image_in(
    v: Accepted,
    g: &[u32],
    n: &[u32],
    x: u32,
    y: u32,
    powers: &mut [u32],
    slopes: &mut [u32],
) -> Point
    requires holds { (HoldsG v.values g.now) × (HoldsN v.values n.now) × (x < v.values.p) }
    requires powers_len { (length powers.old ≡ min (length n.now) 16 + 1) × (length slopes.old ≡ min (length n.now) 16 + 1) }
    ensures { Pushed v.values g.now n.now x y result }
{
    let p = v.values.p;
    evaluation::tables(x, powers, slopes, p);
    let gx = evaluation::evaluate(g, powers, slopes, p);
    if gx.value == 0 {
        return Point::Infinity;
    }
    let nx = evaluation::evaluate(n, powers, slopes, p);
    let w = field::multiply(y, slope(gx, nx, p), p);
    let i = field::inverse_by_euclid(gx.value, p);
    let square = field::multiply(i, i, p);
    let u = field::multiply(nx.value, square, p);
    let t = field::multiply(w, i, p);
    Point::Affine(u, field::multiply(t, square, p))
}

fn image(v: Accepted, g: &[u32], n: &[u32], x: u32, y: u32) -> Point
    requires { (HoldsG v.values g.now) × (HoldsN v.values n.now) × (x < v.values.p) }
    ensures { Pushed v.values g.now n.now x y result }
{
    let mut powers = [0u32; 17];
    let mut slopes = [0u32; 17];
    let k = evaluation::count(n.len());
    image_in(v, g, n, x, y, &mut powers[..k], &mut slopes[..k])
}

// Question 12 and the image, for a certificate that passes, with its coefficients.
fn push_passed(
    v: Accepted,
    ws: &[u32],
    g: &[u32],
    n: &[u32],
    point: Point,
) -> Result<Point, Refusal>
    requires all_yes { (AllYes (check_asks ws.now)) × (v.values ≡ values_of Certificate ws.now) }
    requires g_value { (g.now ≡ gOf Certificate ws.now) × (n.now ≡ n_of Certificate ws.now) }
    ensures { PushRight ws.now point result }
{
    match point {
        Point::Infinity => Ok(Point::Infinity),
        Point::Affine(x, y) => {
            if within(v, x, y) {
                Ok(image(v, g, n, x, y))
            } else {
                Err(Refusal::Point)
            }
        }
    }
}

pub fn push(ws: &[u32], point: Point) -> Result<Point, Refusal>
    ensures { PushRight ws.now point result }
{
    let mut g = [0u32; 128];
    let mut n = [0u32; 256];
    let v = checking::passed(ws, &mut g, &mut n)?;
    let d = sheet::half_degree(v.values);
    push_passed(v, ws, &g[..d + 1], &n[..2 * d + 2], point)
}
