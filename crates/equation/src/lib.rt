// R3, the equation that takes the domain to the codomain, for a g with R1 and the N that R2 gives: by the expansion at infinity where p > 3ℓ - 3, and
// coefficient by coefficient below.
#![tactic(auto)]

mod short;

ghost use Rattle.std.specs.Prelude.{◌≡◌, ◌↔◌, true, ◌+◌, ◌-◌, ◌*◌, ◌%◌, ◌≤◌, length};
ghost use Rattle.zmod.specs.Zmod.{Zmod};
ghost use Rattle.zmod.specs.Residues.{poly};
ghost use Rattle.isogeny.specs.Rules.{N, R1, R3};
ghost use Rattle.sheet.specs.Values.{half, question};
ghost use Rattle.expansion.specs.Begun.{Begun};
ghost use Rattle.sheet.specs.Ready.{HoldsG, HoldsN};

use accepted::Accepted;

// Does R3 hold?
pub fn rule_three(v: Accepted, g: &[u32], n: &[u32]) -> bool
    requires holds_g { HoldsG v.values g.now × R1 (Zmod v.values.p) (question v.values) (poly v.values.p g.now) }
    requires holds_n { HoldsN v.values n.now × (poly v.values.p n.now ≡ N (Zmod v.values.p) (question v.values) (poly v.values.p g.now)) }
    ensures { (result ≡ true) ↔ (R3 (Zmod v.values.p) (question v.values) (poly v.values.p g.now) (poly v.values.p n.now)) }
{
    if 3 * v.values.degree - 3 < v.values.p {
        short::by_expansion(v, g)
    } else {
        sides::compare(v, g, n)
    }
}

// The same for a g of which something is known, with room from outside.
pub fn rule_three_from(
    v: Accepted,
    g: &[u32],
    n: &[u32],
    e: &mut [u64],
    acc: &mut [u64],
    s: &mut [u32],
    h: &mut [u32],
    squares: &mut [u32],
    known: usize,
) -> bool
    requires holds_g { HoldsG v.values g.now × R1 (Zmod v.values.p) (question v.values) (poly v.values.p g.now) }
    requires holds_n { HoldsN v.values n.now × (poly v.values.p n.now ≡ N (Zmod v.values.p) (question v.values) (poly v.values.p g.now)) }
    requires degree_in_bounds { (v.values.degree + 2 ≤ length s.old) × (length s.old ≤ 257) × (length s.old % 4 ≡ 1) × (length acc.old ≡ length s.old) }
    requires h_len { (length h.old ≡ v.values.degree + 1) × (length squares.old ≡ v.values.degree - 2) × (v.values.degree + 6 ≤ length e.old) }
    requires known_bound { (known ≤ half v.values) × Begun v.values g.now s.old h.old known }
    ensures { (result ≡ true) ↔ (R3 (Zmod v.values.p) (question v.values) (poly v.values.p g.now) (poly v.values.p n.now)) }
{
    if 3 * v.values.degree - 3 < v.values.p {
        conditions::by_expansion_in(v, g, e, acc, s, h, squares, known)
    } else {
        sides::compare(v, g, n)
    }
}
