// R3 by the expansion at infinity, for a g with R1 and p > 3ℓ - 3, in room of its own.
ghost use Rattle.std.specs.Prelude.{◌≡◌, ◌↔◌, true, ◌+◌, ◌-◌, ◌*◌, ◌<◌, ◌≤◌};
ghost use Rattle.zmod.specs.Zmod.{Zmod};
ghost use Rattle.zmod.specs.Residues.{poly};
ghost use Rattle.isogeny.specs.Rules.{N, R1, R3};
ghost use Rattle.sheet.specs.Values.{question};
ghost use Rattle.sheet.specs.Ready.{HoldsG};

use accepted::Accepted;

// Where each list of words has room for SIZE. The power sums are as many as fill whole turns.
fn by_expansion_sized<const SIZE: usize>(v: Accepted, g: &[u32]) -> bool
    requires large { 3 * v.values.degree - 3 < v.values.p }
    requires room { (v.values.degree + 6 ≤ SIZE) × (SIZE ≤ 264) }
    requires holds_g { HoldsG v.values g.now × R1 (Zmod v.values.p) (question v.values) (poly v.values.p g.now) }
    ensures { (result ≡ true) ↔ (R3 (Zmod v.values.p) (question v.values) (poly v.values.p g.now)
        (N (Zmod v.values.p) (question v.values) (poly v.values.p g.now))) }
{
    let n = v.values.degree as usize;
    let i = (n + 4) / 4 * 4 + 1;
    let mut e = [0u64; SIZE];
    let mut acc = [0u64; SIZE];
    let mut s = [0u32; SIZE];
    let mut h = [0u32; SIZE];
    let mut squares = [0u32; SIZE];
    conditions::by_expansion_in(
        v,
        g,
        &mut e[..n + 6],
        &mut acc[..i],
        &mut s[..i],
        &mut h[..n + 1],
        &mut squares[..n - 2],
        0,
    )
}

// Does R3 hold? In room of three sizes, so that small degrees clear little: for ℓ up to 21, up to 79, and for all.
pub fn by_expansion(v: Accepted, g: &[u32]) -> bool
    requires large { 3 * v.values.degree - 3 < v.values.p }
    requires holds_g { HoldsG v.values g.now × R1 (Zmod v.values.p) (question v.values) (poly v.values.p g.now) }
    ensures { (result ≡ true) ↔ (R3 (Zmod v.values.p) (question v.values) (poly v.values.p g.now)
        (N (Zmod v.values.p) (question v.values) (poly v.values.p g.now))) }
{
    if v.values.degree <= 21 {
        by_expansion_sized::<28>(v, g)
    } else if v.values.degree <= 79 {
        by_expansion_sized::<88>(v, g)
    } else {
        by_expansion_sized::<264>(v, g)
    }
}
