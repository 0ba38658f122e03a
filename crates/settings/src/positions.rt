// The remainders of a position.
ghost use Rattle.settings.specs.Settings.{OnePosition};
ghost use Rattle.settings.specs.Told.{RemainderTold, factors_of, unit_of};

use crate::{RemainderRefusal, Setting};

impl Setting {
    /// The remainder of a position in a channel. No other position below the range has the same in every channel.
    pub fn remainder(&self, position: u64, channel: usize) -> Result<u32, RemainderRefusal>
        ensures told { RemainderTold self.now position channel result }
        ensures only { OnePosition (unit_of self.now) (factors_of self.now) }
    {
        if position >= self.range {
            return Err(RemainderRefusal::Position);
        }
        let Some(&modulus) = self.moduli().get(channel) else {
            return Err(RemainderRefusal::Channel { channel });
        };
        Ok((position % u64::from(modulus)) as u32)
    }
}
