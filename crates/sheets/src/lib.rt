// Sheets: a recording as the desk's table of text, and back.
#![tactic(auto)]

mod errors;
mod lines;
mod making;
mod notes;
mod printing;
mod reading;
mod rows;
mod whole;

pub use errors::BadSheet;
pub use lines::Sheet;
pub use making::RecordError;
pub use printing::printed;
pub use reading::{Unrecorded, recorded_from};
pub use whole::{BadLine, NotRecorded, recorded};
