// The N that R2 gives for the values of a sheet and a g, from the products that its parts are made of. g has d + 1 words and N has
// 2d + 2, the constant term first.
#![tactic(auto)]

ghost use Rattle.std.specs.Prelude.{◌≡◌, ◌+◌, ◌-◌, ◌*◌, ◌≤◌, length};
ghost use Rattle.zmod.specs.Zmod.{Zmod};
ghost use Rattle.zmod.specs.Residues.{poly, Residues};
ghost use Rattle.isogeny.specs.Rules.{N};
ghost use Rattle.sheet.specs.Values.{half, question};
ghost use Rattle.sheet.specs.Ready.{HoldsG};
ghost use Rattle.rules.specs.Products.{Products};

use accepted::Accepted;

// g², -2gg' and -4(gg'' - g'²), from two squares: with s = -(g²)' the last one is 2s' + 8g'². h takes g' and q its square; e and acc are the squares' room.
pub fn products(
    v: Accepted,
    g: &[u32],
    e: &mut [u64],
    acc: &mut [u64],
    h: &mut [u32],
    q: &mut [u32],
    square: &mut [u32],
    slope: &mut [u32],
    bend: &mut [u32],
)
    requires holds_g { HoldsG v.values g.now }
    requires e_len { (length e.old ≡ half v.values + 7) × (length acc.old ≡ 2 * half v.values + 1) × (length h.old ≡ half v.values)
        × (length q.old ≡ 2 * half v.values + 1) }
    requires square_len { (length square.old ≡ 2 * half v.values + 1) × (length slope.old ≡ 2 * half v.values) × (length bend.old ≡ 2 * half v.values - 1) }
    ensures { Products v.values.p (poly v.values.p g.now) square.new slope.new bend.new }
{
    poly::square(g, e, acc, square, v.modulus);
    rules::slope_of(square, slope, v.values.p);
    poly::derivative(g, h, v.values.p);
    poly::square(h, e, acc, q, v.modulus);
    rules::bend_of(slope, q, bend, v.values.p);
}

// The N that R2 gives, where the products have room of SIZE words each.
fn numerator_sized<const SIZE: usize>(v: Accepted, g: &[u32], out: &mut [u32])
    requires holds_g { HoldsG v.values g.now }
    requires room { (v.values.degree + 6 ≤ SIZE) × (SIZE ≤ 264) }
    ensures { Residues v.values.p (N (Zmod v.values.p) (question v.values) (poly v.values.p g.now)) out.new }
{
    let d = g.len() - 1;
    let mut e = [0u64; SIZE];
    let mut acc = [0u64; SIZE];
    let mut h = [0u32; SIZE];
    let mut q = [0u32; SIZE];
    let mut square = [0u32; SIZE];
    let mut slope = [0u32; SIZE];
    let mut bend = [0u32; SIZE];
    let square = &mut square[..2 * d + 1];
    let slope = &mut slope[..2 * d];
    let bend = &mut bend[..2 * d - 1];
    products(
        v,
        g,
        &mut e[..d + 7],
        &mut acc[..2 * d + 1],
        &mut h[..d],
        &mut q[..2 * d + 1],
        square,
        slope,
        bend,
    );
    rules::sum_of_parts(v, square, slope, bend, out);
}

// The N that R2 gives, in room of three sizes, so that small degrees clear little: for ℓ up to 21, up to 79, and for all.
pub fn numerator(v: Accepted, g: &[u32], out: &mut [u32])
    requires holds_g { HoldsG v.values g.now }
    requires out_len { length out.old ≡ 2 * half v.values + 2 }
    ensures { Residues v.values.p (N (Zmod v.values.p) (question v.values) (poly v.values.p g.now)) out.new }
{
    if v.values.degree <= 21 {
        numerator_sized::<28>(v, g, out)
    } else if v.values.degree <= 79 {
        numerator_sized::<88>(v, g, out)
    } else {
        numerator_sized::<264>(v, g, out)
    }
}
