// Encoding: recordings written into the caller's buffer.
#![tactic(auto)]

mod checks;
mod contents;
mod parts;
mod refusals;
mod writing;

pub use refusals::WriteRefusal;
pub use writing::write;
