// The entries of a recording, one after another.
ghost use Rattle.std.specs.Prelude.{◌≡◌};
ghost use Rattle.recordings.specs.Contents.{entries_of};
ghost use Rattle.recordings.specs.Walking.{entries_left};

use crate::numbers::entry_at;
use crate::{ChannelEntry, ENTRY_BYTES, Recording};

/// The entries that are still to come, channel after channel.
#[derive(Clone, Copy)]
pub struct Entries<'a> {
    rest: &'a [u8],
}

impl<'a> Iterator for Entries<'a> {
    ghost use Rattle.std.specs.Iterator.{YieldsFirst, item_count};

    type Item = ChannelEntry;

    ghost next_gives = { YieldsFirst entries_left };

    ghost remaining = { item_count entries_left };

    #[tactic(auto, using(crate::proofs::Walks::entries_first, crate::proofs::Walks::entries_over))]
    fn next(&mut self) -> Option<ChannelEntry> {
        let (first, rest) = self.rest.split_at_checked(ENTRY_BYTES)?;
        self.rest = rest;
        Some(entry_at(first, 0))
    }
}

impl<'a> Recording<'a> {
    /// The entries, from that of channel 0 on.
    pub fn entries(&self) -> Entries<'a>
        ensures { entries_left result ≡ entries_of self.now }
    {
        Entries { rest: self.entries }
    }
}
