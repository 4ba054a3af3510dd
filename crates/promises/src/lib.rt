// What the services promise: specs/ has the questions that each of them puts, and which answer is right. Here is the point that push takes and answers.
#![tactic(auto)]

// A point of a curve.
#[derive(Clone, Copy, Debug, PartialEq, Eq)]
pub enum Point {
    Affine(u32, u32),
    Infinity,
}
