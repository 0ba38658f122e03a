// The writer's checks, in their order.
ghost use Rattle.std.specs.Prelude.{ℕ, ◌<◌, ◌↔◌, length, IsTrue, MatchOption, MatchResult};
ghost use Rattle.encoding.specs.Refusals.{FitAt, FitsIn, UnfitFirst, WriteRefused};
ghost use Rattle.encoding.specs.Writing.{AllPass};

use crate::WriteRefusal;
use crate::contents::Contents;
use heads::fitness;
use recordings::{ChannelEntry, ENDING_BYTES, ENTRY_BYTES, NUMBER_BYTES};

/// The lowest channel whose entry is unfit.
// No one function with the recordings' search: that decodes each entry from its bytes, and these are at hand.
fn first_unfit(entries: &[ChannelEntry]) -> Option<usize>
    ensures { MatchOption result ((k : ℕ) → k < length entries.now → FitAt entries.now k) (UnfitFirst entries.now) }
{
    entries
        .iter()
        .position(|entry| !fitness(entry.modulus, entry.bound))
}

impl Contents<'_> {
    /// Whether the recording fits in this room, and in 2^31 bytes.
    fn fits_in(&self, room: usize) -> bool
        ensures { IsTrue result ↔ FitsIn room self.now.note.now self.now.rows.now self.now.entries.now }
    {
        // A sum that would wrap stays at the greatest number, which is above 2^31.
        let bytes = self
            .note
            .len()
            .saturating_add(NUMBER_BYTES * self.rows.len())
            .saturating_add(ENTRY_BYTES * self.entries.len() + ENDING_BYTES);
        bytes <= room && bytes <= 1 << 31
    }

    /// That these can be written into this room.
    #[tactic(auto, using(crate::proofs::Passing::all_fit))]
    pub(crate) fn check(&self, room: usize) -> Result<(), WriteRefusal>
        ensures { MatchResult result (λ _. AllPass room self.now.note.now self.now.rows.now self.now.entries.now) (WriteRefused room self.now.note.now self.now.rows.now self.now.entries.now) }
    {
        if !(1..=8).contains(&self.entries.len()) {
            return Err(WriteRefusal::Channels);
        }
        if self.rows.len() % self.entries.len() != 0 {
            return Err(WriteRefusal::Rows);
        }
        if let Some(channel) = first_unfit(self.entries) {
            return Err(WriteRefusal::UnfitEntry { channel });
        }
        if !self.fits_in(room) {
            return Err(WriteRefusal::Room);
        }
        Ok(())
    }
}
