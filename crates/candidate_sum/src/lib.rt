// The one kernel sum that can have a polynomial which meets the rules, for two curves and a degree (document 02, E9): N/g² is x and the expansion at infinity
// that the curves determine, up to h_(4d), and g² is its denominator, of degree 2d; so σ, which counts each root of g twice, is the sum of the poles.
#![tactic(auto)]

ghost use Rattle.std.specs.Prelude.{◌≡◌, ◌+◌, ◌*◌, ◌≤◌, length};
ghost use Rattle.sheet.specs.Values.{half};
ghost use Rattle.candidate_sum.specs.CandidateSum.{Determined, CandidateSum};

use accepted::Accepted;
use sheet::Values;

// In room: a table of inverses, the expansion, and two rows.
fn sum_in(
    v: Accepted,
    table: &mut [u32],
    h: &mut [u32],
    t: &mut [u64],
    u: &mut [u64],
) -> Option<u32>
    requires determined { Determined v.values }
    requires table_len { (length table.old ≡ 8 * half v.values + 4) × (length h.old ≡ 4 * half v.values + 1) }
    requires t_len { (length t.old ≡ 2 * half v.values + 1) × (length u.old ≡ 2 * half v.values + 1) }
    ensures { CandidateSum v.values result }
{
    field::inverses(table, v.values.p);
    recurrence::expansion_of_curves(v, table, h);
    poles::sum_of_poles(h, t, u, v.modulus)
}

// The same with room of its own: T words for the inverses, H for the expansion, R for each row.
fn sized<const T: usize, const H: usize, const R: usize>(v: Accepted) -> Option<u32>
    requires determined { Determined v.values }
    requires room { (4 * v.values.degree ≤ T) × (2 * v.values.degree ≤ H + 1) × (v.values.degree ≤ R) }
    requires small { (T ≤ 1024) × (H ≤ 512) × (R ≤ 264) }
    ensures { CandidateSum v.values result }
{
    let l = v.values.degree as usize;
    let i = 4 * l;
    let j = 2 * l - 1;
    let mut table = [0; T];
    let mut h = [0; H];
    let mut t = [0; R];
    let mut u = [0; R];
    sum_in(v, &mut table[..i], &mut h[..j], &mut t[..l], &mut u[..l])
}

// The kernel sum for the curves and the degree of v, whose own σ does not matter, or none. Degrees up to 21 need little room.
pub fn candidate_sum(v: Values) -> Option<u32>
    requires { Determined v }
    ensures { CandidateSum v result }
{
    let v = Accepted::new(v);
    if v.values.degree <= 21 {
        sized::<88, 88, 28>(v)
    } else {
        sized::<1024, 512, 264>(v)
    }
}
