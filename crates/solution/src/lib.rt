// Solve on the values of an accepted question: the one polynomial that can meet the rules, and its certificate if it does, in room of three sizes.
#![tactic(auto)]

ghost use Rattle.std.specs.Prelude.{◌≡◌, ◌+◌, ◌%◌, ◌≤◌, length};
ghost use Rattle.sheet.specs.Values.{half};
ghost use Rattle.promises.specs.Asked.{Room};
ghost use Rattle.solution.specs.Solved.{Solved};

use accepted::Accepted;
use questions::Refusal;

// Solve on the values of an accepted question, in room. Half of what R3 asks holds of the candidate by construction. (Before N stands in its place, its room
// serves for g from the top down; the table's serves for the squares of R3 after it.)
fn solve_in(
    v: Accepted,
    e: &mut [u64],
    acc: &mut [u64],
    s: &mut [u32],
    h: &mut [u32],
    table: &mut [u32],
    n: &mut [u32],
    g: &mut [u32],
    answer: &mut [u32],
) -> Result<u32, Refusal>
    requires degree_in_bounds { (v.values.degree + 2 ≤ length s.old) × (length s.old ≤ 257) × (length s.old % 4 ≡ 1) × (length acc.old ≡ length s.old) }
    requires degree_in_bounds_2 { (v.values.degree + 6 ≤ length e.old) × (length h.old ≡ v.values.degree + 1) × (length table.old ≡ v.values.degree + 1) }
    requires n_len { (length n.old ≡ v.values.degree + 1) × (length g.old ≡ half v.values + 1) × Room (length answer.old) }
    ensures { Solved v.values answer.old answer.new result }
{
    candidate::candidate(v, table, h, s, n, g);
    numerator::numerator(v, g, n);
    let d = g.len() - 1;
    let k = table.len() - 3;
    let holds = equation::rule_three_from(v, g, n, e, acc, s, h, &mut table[..k], d);
    certifying::finish(v, g, n, holds, answer)
}

// The same, with room of its own for N values.
fn solve_sized<const N: usize>(v: Accepted, answer: &mut [u32]) -> Result<u32, Refusal>
    requires room { (v.values.degree + 7 ≤ N) × (N ≤ 264) × Room (length answer.old) }
    ensures { Solved v.values answer.old answer.new result }
{
    let n = v.values.degree as usize;
    let i = (n + 4) / 4 * 4 + 1;
    let k = n + 1;
    let c = n + 6;
    let j = n / 2 + 1;
    let mut e = [0u64; N];
    let mut acc = [0u64; N];
    let mut s = [0u32; N];
    let mut h = [0u32; N];
    let mut table = [0u32; N];
    let mut numerator = [0u32; N];
    let mut g = [0u32; N];
    solve_in(
        v,
        &mut e[..c],
        &mut acc[..i],
        &mut s[..i],
        &mut h[..k],
        &mut table[..k],
        &mut numerator[..k],
        &mut g[..j],
        answer,
    )
}

// The same, in the smallest of three sizes that is enough.
pub fn solve_values(v: Accepted, answer: &mut [u32]) -> Result<u32, Refusal>
    requires room { Room (length answer.old) }
    ensures { Solved v.values answer.old answer.new result }
{
    if v.values.degree <= 21 {
        return solve_sized::<28>(v, answer);
    }
    if v.values.degree <= 79 {
        return solve_sized::<88>(v, answer);
    }
    solve_sized::<264>(v, answer)
}
