// The desk's text table, read line by line.
#![tactic(auto)]

mod answers;
mod desks;
mod errors;
mod headings;
mod numerals;
mod parts;
mod reading;
mod replies;
mod splitting;

pub use answers::{
    RefusalRecord, Spaced, UnfoldingLine, refusal_line, refusal_record, row_line, unfolding_line,
};
pub use desks::Desk;
pub use errors::BadText;
pub use headings::Heading;
pub use numerals::{NoNumber, number};
pub use parts::{Part, part_of};
pub use replies::Reply;
pub use splitting::{Words, first_word};
