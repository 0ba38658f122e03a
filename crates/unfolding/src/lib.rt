// Unfolding: from one reading of each channel to folding numbers, bracket and mean.
#![tactic(auto)]

mod answers;
mod checks;
mod digits;
mod ends;
mod examples;
mod few;
mod folding;
mod kept;
mod means;
mod numbers;
mod quotients;
mod refusals;
mod telling;

pub use answers::unfold;
pub use examples::worked_unfoldings;
pub use kept::Unfolding;
pub use refusals::UnfoldRefusal;
