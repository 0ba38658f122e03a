// Records that calls answer and logs keep, and the middle of items under an order.
#![tactic(auto)]

mod choosing;
mod faults;
mod fixes;
mod middles;
mod narrowing;
mod orders;

pub use choosing::middle;
pub use faults::Fault;
pub use fixes::Fix;
pub use middles::middle_of_few;
pub use narrowing::middle_of_many;
pub use orders::{Ascending, InTurn, Order, OwnOrder, compared};
