// The end of every service that writes a certificate: from the values and a g with R1 to N, R3, the count of rational abscissas and the words.
#![tactic(auto)]

ghost use Rattle.std.specs.Prelude.{◌≡◌, ◌↔◌, true, ◌+◌, ◌*◌, length};
ghost use Rattle.zmod.specs.Zmod.{Zmod};
ghost use Rattle.zmod.specs.Residues.{poly};
ghost use Rattle.isogeny.specs.Rules.{N, R1, R3};
ghost use Rattle.sheet.specs.Values.{half, question};
ghost use Rattle.sheet.specs.Ready.{HoldsG, HoldsN};
ghost use Rattle.promises.specs.Asked.{Room};
ghost use Rattle.certifying.specs.Certified.{Certified};

use accepted::Accepted;
use questions::Refusal;

// The certificate of a g with R1, where n is its N and `holds` says whether it has R3; else 11.
pub fn finish(
    v: Accepted,
    g: &[u32],
    n: &[u32],
    holds: bool,
    answer: &mut [u32],
) -> Result<u32, Refusal>
    requires holds_g { HoldsG v.values g.now × R1 (Zmod v.values.p) (question v.values) (poly v.values.p g.now) }
    requires holds_n { HoldsN v.values n.now × (poly v.values.p n.now ≡ N (Zmod v.values.p) (question v.values) (poly v.values.p g.now)) }
    requires variant { (holds ≡ true) ↔ R3 (Zmod v.values.p) (question v.values) (poly v.values.p g.now) (poly v.values.p n.now) }
    requires room { Room (length answer.old) }
    ensures { Certified v.values g.now answer.old answer.new result }
{
    if !holds {
        return Err(Refusal::NoIsogeny);
    }
    let abscissas = counting::roots(g, v.modulus);
    let words = certificate::write(v.values, g, n, abscissas, answer);
    let count = words as u32;
    Ok(count)
}

// The certificate of a g with R1, or 11; with room for N.
fn certify_in(v: Accepted, g: &[u32], n: &mut [u32], answer: &mut [u32]) -> Result<u32, Refusal>
    requires holds_g { HoldsG v.values g.now × R1 (Zmod v.values.p) (question v.values) (poly v.values.p g.now) }
    requires n_len { (length n.old ≡ 2 * half v.values + 2) × Room (length answer.old) }
    ensures { Certified v.values g.now answer.old answer.new result }
{
    numerator::numerator(v, g, n);
    let holds = equation::rule_three(v, g, n);
    finish(v, g, n, holds, answer)
}

// The same, with room of its own.
pub fn certify(v: Accepted, g: &[u32], answer: &mut [u32]) -> Result<u32, Refusal>
    requires holds_g { HoldsG v.values g.now × R1 (Zmod v.values.p) (question v.values) (poly v.values.p g.now) }
    requires room { Room (length answer.old) }
    ensures { Certified v.values g.now answer.old answer.new result }
{
    let count = 2 * g.len();
    let mut n = [0u32; 256];
    certify_in(v, g, &mut n[..count], answer)
}
