// Recordings: a note, rows of numbers and the channels' entries, as one run of bytes.
#![tactic(auto)]

mod checking;
mod endings;
mod entries;
mod numbers;
mod recording;
mod refusals;
mod rows;
mod sizes;
mod telling;
mod walking;

pub use entries::ChannelEntry;
pub use recording::Recording;
pub use refusals::CheckRefusal;
pub use rows::Numbers;
pub use sizes::{ENDING_BYTES, ENTRY_BYTES, NUMBER_BYTES};
pub use walking::Entries;
