// The check: bytes that are a recording, or the first reason why they are none.
ghost use Rattle.std.specs.Prelude.{◌≡◌};
ghost use Rattle.std.specs.List.{position};
ghost use Rattle.recordings.specs.Laws.{OneRefusal, RecordsOne, RefusedRecordsNothing};
ghost use Rattle.recordings.specs.Refusals.{Checked, unfit};
ghost use Rattle.recordings.specs.Walking.{entries_left};

use crate::endings::Ending;
use crate::{CheckRefusal, Entries, Recording};
use heads::fitness;

/// The lowest channel whose entry is unfit.
#[tactic(auto, using(crate::proofs::Columns::length_entries_in))]
fn first_unfit(mut entries: Entries) -> Option<usize>
    ensures { result ≡ position unfit (entries_left entries.entry) }
{
    entries.position(|entry| !fitness(entry.modulus, entry.bound))
}

impl<'a> Recording<'a> {
    /// The recording that these bytes are, or the first check that they fail.
    pub fn check(bytes: &'a [u8]) -> Result<Recording<'a>, CheckRefusal>
        ensures checked { Checked bytes.now result }
        ensures never_both { RefusedRecordsNothing }
        ensures only_one { RecordsOne }
        ensures one_refusal { OneRefusal }
    {
        let recording = Ending::read(bytes)?.cut()?;
        if let Some(channel) = first_unfit(recording.entries()) {
            return Err(CheckRefusal::UnfitEntry { channel });
        }
        Ok(recording)
    }
}
