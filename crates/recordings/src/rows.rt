// The numbers of a row, one after another.
ghost use Rattle.std.specs.Prelude.{◌≡◌, ℕ, ◌/◌, ◌^◌, ◌<◌, length};
ghost use Rattle.std.specs.List.{slice_get};
ghost use Rattle.recordings.specs.Contents.{entries_of, number_told, rows_of};
ghost use Rattle.recordings.specs.Walking.{numbers_left};

use crate::numbers::number_at;
use crate::{NUMBER_BYTES, Recording};

/// The numbers of a row that are still to come, channel after channel.
// Beside `Entries`: one type of both would be told how many bytes an item takes and how it is read, and be no shorter.
#[derive(Clone, Copy)]
pub struct Numbers<'a> {
    rest: &'a [u8],
}

impl<'a> Iterator for Numbers<'a> {
    ghost use Rattle.std.specs.Iterator.{YieldsFirst, item_count};

    type Item = u32;

    ghost next_gives = { YieldsFirst numbers_left };

    ghost remaining = { item_count numbers_left };

    #[tactic(auto, using(crate::proofs::Walks::numbers_first, crate::proofs::Walks::numbers_over))]
    fn next(&mut self) -> Option<u32> {
        let (first, rest) = self.rest.split_at_checked(NUMBER_BYTES)?;
        self.rest = rest;
        Some(number_at(first, 0))
    }
}

impl<'a> Recording<'a> {
    /// The numbers of a row, from that of channel 0 on; none where there is no such row.
    pub fn row(&self, row: usize) -> Numbers<'a>
        ensures numbers { (k : ℕ) → slice_get (numbers_left result) k ≡ number_told self.now row k }
        ensures whole { row < length (rows_of self.now) / length (entries_of self.now) → length (numbers_left result) ≡ length (entries_of self.now) }
        ensures countable { length (numbers_left result) < 2 ^ 64 }
    {
        if row >= self.row_count() {
            return Numbers { rest: &[] };
        }
        let channels = self.channel_count();
        let start = NUMBER_BYTES * (row * channels);
        Numbers {
            rest: &self.rows[start..start + NUMBER_BYTES * channels],
        }
    }
}
