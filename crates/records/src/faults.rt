// The fault record: what is kept of a refusal.
ghost use Rattle.std.specs.Prelude.{◌≡◌, Some};
ghost use Rattle.records.specs.Faults.{fault_text};

use std::fmt;

/// A refusal as a record: its number in the table of refusals, the channel and
/// the depth it names, and its two figures. What a refusal does not name is 0.
/// The number is a number and no enum: records are kept and printed by it.
#[derive(Clone, Copy, PartialEq, Eq, Debug, Default)]
pub struct Fault {
    pub code: u8,
    pub channel: usize,
    pub depth: u16,
    pub first: u64,
    pub second: u64,
}

/// Number, channel and depth, as `refused 24 channel 1 depth 0`.
impl fmt::Display for Fault {
    ghost output = { λ f. Some (fault_text f) };

    fn fmt<W: fmt::Write>(&self, f: &mut fmt::Formatter<W>) -> fmt::Result {
        let Fault {
            code,
            channel,
            depth,
            ..
        } = *self;
        write!(f, "refused {code} channel {channel} depth {depth}")
    }
}
