// The recording of a sheet, as bytes.
ghost use Rattle.std.specs.Prelude.{◌≡◌, ◌+◌, ◌*◌, ◌^◌, ◌≤◌, IfOk, MatchResult};
ghost use Rattle.sheets.specs.Making.{Encodes, NotEncoded, entries_of_table, paired};
ghost use Rattle.sheets.specs.declared.making.RecordError.TheVariants.{NoMemory, Refused};

use crate::lines::Sheet;
use encoding::{WriteRefusal, write};
use recordings::{ChannelEntry, ENDING_BYTES, ENTRY_BYTES, NUMBER_BYTES};
use std::alloc::{AllocError, AllocFailed as NoPlace, Global};

/// Why a sheet is not recorded: the writer refuses it, or memory is wanting.
#[derive(Clone, Copy, PartialEq, Eq, Debug)]
pub enum RecordError {
    Refused(WriteRefusal),
    NoMemory,
}

impl From<WriteRefusal> for RecordError {
    ghost from_gives = { λ e r. r ≡ Refused e };

    fn from(refusal: WriteRefusal) -> RecordError {
        RecordError::Refused(refusal)
    }
}

impl From<AllocError> for RecordError {
    ghost from_gives = { λ _ r. r ≡ NoMemory };

    fn from(_e: AllocError) -> RecordError {
        RecordError::NoMemory
    }
}

// A second impl, for callers that push: one for all that become an `AllocError` would cross `From<T> for T`.
impl<T: Drop> From<NoPlace<T>> for RecordError {
    ghost from_gives = { λ _ r. r ≡ NoMemory };

    fn from(_e: NoPlace<T>) -> RecordError {
        RecordError::NoMemory
    }
}

/// The largest recording that is written.
const LIMIT: usize = 1 << 31;

/// The bytes of a recording with so many in its note, numbers and channels; at most the limit.
// The writer adds up the same, but over parts that are there, and asks whether they fit.
fn room(note: usize, numbers: usize, channels: usize) -> usize
    ensures { note + 4 * numbers + 8 * channels + 16 ≤ 2 ^ 31 → result ≡ note + 4 * numbers + 8 * channels + 16 }
{
    // A count that would wrap stays at the greatest number, which is above the limit.
    numbers
        .saturating_mul(NUMBER_BYTES)
        .saturating_add(channels.saturating_mul(ENTRY_BYTES))
        .saturating_add(note)
        .saturating_add(ENDING_BYTES)
        .min(LIMIT)
}

/// Each modulus with its bound.
fn pair(heap: Global, moduli: &[u32], bounds: &[u32]) -> Result<Vec<ChannelEntry>, AllocError>
    ensures { IfOk result (λ entries. entries.items ≡ paired moduli.now bounds.now) }
{
    moduli
        .iter()
        .zip(bounds)
        .map(|(&modulus, &bound)| ChannelEntry { modulus, bound })
        .collect(heap)
}

/// The recording of a note, rows and entries.
fn encode(
    heap: Global,
    note: &[u8],
    rows: &[u32],
    entries: &[ChannelEntry],
) -> Result<Vec<u8>, RecordError>
    ensures { MatchResult result (λ v. Encodes note.now rows.now entries.now v.items) (NotEncoded note.now rows.now entries.now) }
{
    let room = room(note.len(), rows.len(), entries.len());
    let mut bytes: Vec<u8> = vec![in heap; 0; room]?;
    let length = write(bytes.as_mut_slice(), note, rows, entries)?;
    bytes.truncate(length);
    Ok(bytes)
}

impl Sheet {
    /// The recording of what was collected.
    pub fn record(&self, heap: Global) -> Result<Vec<u8>, RecordError>
        ensures { MatchResult result (λ v. Encodes self.now.note.items self.now.rows.items (entries_of_table self.now) v.items) (NotEncoded self.now.note.items self.now.rows.items (entries_of_table self.now)) }
    {
        let entries = pair(heap, self.moduli.as_slice(), self.bounds.as_slice())?;
        encode(
            heap,
            self.note.as_slice(),
            self.rows.as_slice(),
            entries.as_slice(),
        )
    }
}
