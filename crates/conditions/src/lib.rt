// R3 by the expansion at infinity, for a g with R1 and p > 3ℓ - 3, in lent room: two equations for the codomain, and the recurrence up to ℓ.
#![tactic(auto)]

ghost use Rattle.std.specs.Prelude.{◌≡◌, ◌↔◌, true, ◌+◌, ◌-◌, ◌*◌, ◌%◌, ◌<◌, ◌≤◌, length};
ghost use Rattle.zmod.specs.Zmod.{Zmod};
ghost use Rattle.zmod.specs.Residues.{Reduced, poly};
ghost use Rattle.isogeny.specs.Rules.{N, R1, R3};
ghost use Rattle.isogeny.specs.Expansion.{Short};
ghost use Rattle.sheet.specs.Values.{half, question};
ghost use Rattle.expansion.specs.Begun.{ShortTo, Begun};
ghost use Rattle.sheet.specs.Ready.{HoldsG};

use accepted::Accepted;

// Are 5h₁ = A - Ã and 7h₂ = B - B̃? Nothing is asked where they are known to be.
fn begins(v: Accepted, h: &[u32], known: usize) -> bool
    requires { (3 ≤ length h.now) × ShortTo (Zmod v.values.p) (question v.values) known (poly v.values.p h.now) }
    ensures { (result ≡ true) ↔ ShortTo (Zmod v.values.p) (question v.values) 3 (poly v.values.p h.now) }
{
    if 3 <= known {
        return true;
    }
    let p = v.values.p;
    if field::multiply(5, h[1], p) != field::subtract(v.values.a, v.values.atilde, p) {
        return false;
    }
    field::multiply(7, h[2], p) == field::subtract(v.values.b, v.values.btilde, p)
}

// Does h, whose terms before `known` do, begin so and obey the recurrence? e, acc and squares are room for that.
fn conditions(
    v: Accepted,
    h: &[u32],
    known: usize,
    e: &mut [u64],
    acc: &mut [u64],
    squares: &mut [u32],
) -> bool
    requires h_words { (length h.now ≡ v.values.degree + 1) × (Reduced v.values.p h.now) }
    requires squares_len { (length squares.old ≡ v.values.degree - 2) × (length squares.old ≤ length acc.old) × (v.values.degree + 6 ≤ length e.old) }
    requires known_le_degree { (known ≤ v.values.degree) × ShortTo (Zmod v.values.p) (question v.values) known (poly v.values.p h.now) }
    ensures { (result ≡ true) ↔ Short (Zmod v.values.p) (question v.values) (poly v.values.p h.now) }
{
    if !begins(v, h, known) {
        return false;
    }
    let k = squares.len();
    let from = known.max(3);
    expansion::recurs(v, h, from, e, &mut acc[..k], squares)
}

// Does R3 hold? s takes the power sums, h the expansion, of both of which the beginning may be there already, and squares the sums of the recurrence; e and
// acc are room for all of them.
pub fn by_expansion_in(
    v: Accepted,
    g: &[u32],
    e: &mut [u64],
    acc: &mut [u64],
    s: &mut [u32],
    h: &mut [u32],
    squares: &mut [u32],
    known: usize,
) -> bool
    requires large { 3 * v.values.degree - 3 < v.values.p }
    requires holds_g { HoldsG v.values g.now × R1 (Zmod v.values.p) (question v.values) (poly v.values.p g.now) }
    requires degree_in_bounds { (v.values.degree + 2 ≤ length s.old) × (length s.old ≤ 257) × (length s.old % 4 ≡ 1) × (length acc.old ≡ length s.old) }
    requires h_len { (length h.old ≡ v.values.degree + 1) × (length squares.old ≡ v.values.degree - 2) × (v.values.degree + 6 ≤ length e.old) }
    requires known_bound { (known ≤ half v.values) × Begun v.values g.now s.old h.old known }
    ensures { (result ≡ true) ↔ (R3 (Zmod v.values.p) (question v.values) (poly v.values.p g.now)
        (N (Zmod v.values.p) (question v.values) (poly v.values.p g.now))) }
{
    power_sums::power_sums(v, g, e, acc, s, known);
    expansion::expansion(v, s, h, known);
    conditions(v, h, known, e, acc, squares)
}
