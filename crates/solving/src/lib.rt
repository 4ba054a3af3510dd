// Solve: the question is read, and its certificate written if the one polynomial that can meet the rules does.
#![tactic(auto)]

ghost use Rattle.promises.specs.Answer.{SolveRight};

use accepted::Accepted;
use questions::Refusal;
use sheet::Form;

// The certificate for a question, in the answer; or the first of questions 1 to 7 and 11 with a no, and then the answer is as it was.
pub fn solve(ws: &[u32], answer: &mut [u32]) -> Result<u32, Refusal>
    ensures { SolveRight ws.now answer.old answer.new result }
{
    if answer.len() < sheet::MOST_WORDS {
        return Err(Refusal::Room);
    }
    let v = reading::read(Form::Question, ws)?;
    solution::solve_values(Accepted::new(v), answer)
}
