// Questions and refusals: a service's error is the first question that its sheet does not pass, and C programs get that question's number. Lists of questions,
// the first no and what a right answer is stand in specs/.
#![tactic(auto)]

mod refusal;

pub use refusal::Refusal;
