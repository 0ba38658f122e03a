// Heads: everything that can be read, by its figures and the entries that wait in it.
#![tactic(auto)]

mod advancing;
mod faults;
mod plates;
mod tables;
mod tracks;

pub use advancing::advance;
pub use faults::HeadFault;
pub use plates::{Figures, Head, Plate, fit_figures, fitness};
pub use tables::{PhaseTable, phase_reading};
pub use tracks::EncoderTrack;
