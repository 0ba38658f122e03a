// What a recording tells.
ghost use Rattle.std.specs.Prelude.{◌≡◌, ℕ, ◌/◌, length};
ghost use Rattle.recordings.specs.Contents.{column_of, entries_of, note_of, number_told, rows_of};
ghost use Rattle.std.specs.List.{slice_get};

use crate::numbers::{entry_at, number_at};
use crate::{ChannelEntry, ENTRY_BYTES, NUMBER_BYTES, Recording};

impl<'a> Recording<'a> {
    /// The note: a part of the bytes that were checked.
    pub fn note(&self) -> &'a [u8]
        ensures { result.now ≡ note_of self.now }
    {
        self.note
    }

    /// How many channels there are.
    #[tactic(auto, using(crate::proofs::Columns::length_entries_in))]
    pub fn channel_count(&self) -> usize
        ensures { result ≡ length (entries_of self.now) }
    {
        self.entries.len() / ENTRY_BYTES
    }

    /// How many rows there are: the length of each column.
    pub fn row_count(&self) -> usize
        ensures count { result ≡ length (rows_of self.now) / length (entries_of self.now) }
        ensures columns { (k : ℕ) → length (column_of self.now k) ≡ result }
    {
        let numbers = self.rows.len() / NUMBER_BYTES;
        numbers.checked_div(self.channel_count()).unwrap_or(0)
    }

    /// The entry of a channel, or None where there is no such channel.
    #[tactic(auto, using(crate::proofs::Columns::length_entries_in))]
    pub fn entry(&self, channel: usize) -> Option<ChannelEntry>
        ensures { result ≡ slice_get (entries_of self.now) channel }
    {
        (channel < self.channel_count()).then(|| entry_at(self.entries, channel))
    }

    /// The number of a channel in a row, or None where there is no such row or channel.
    pub fn number(&self, row: usize, channel: usize) -> Option<u32>
        ensures { result ≡ number_told self.now row channel }
    {
        let channels = self.channel_count();
        if channel >= channels || row >= self.row_count() {
            return None;
        }
        let index = row * channels + channel;
        Some(number_at(self.rows, NUMBER_BYTES * index))
    }
}
