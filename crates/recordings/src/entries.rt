// The entries of a recording: what it tells of each channel.
ghost use Rattle.std.specs.Prelude.{◌≡◌};
ghost use Rattle.heads.specs.PhaseTables.{table_told};

use heads::{Figures, Plate};

/// A channel's modulus and bound, as a recording has them. It is a plate of
/// depth 0, and no head: an entry has no rows of its own to read.
#[derive(Clone, Copy, PartialEq, Eq, Debug)]
pub struct ChannelEntry {
    pub modulus: u32,
    pub bound: u32,
}

impl Plate for ChannelEntry {
    ghost told = { λ s. table_told s.modulus s.bound };

    fn figures(&self) -> Figures {
        Figures::foot(self.modulus, self.bound)
    }
}
