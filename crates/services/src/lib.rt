// The services of the library on sheets lent as slices of words, under one roof. None of them asks anything of its caller: a sheet that does not pass
// gets the first question that it fails. `guarantees` holds what a customer can cite of them.
#![tactic(auto)]

pub use checking::check;
pub use composing::compose;
pub use naming::name;
pub use promises::Point;
pub use pushing::push;
pub use questions::Refusal;
pub use solving::solve;
pub use velu::kernel;
