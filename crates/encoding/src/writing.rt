// The writer: the recording of a note, rows and entries into the front of a buffer.
ghost use Rattle.std.specs.Prelude.{◌≡◌, ◌+◌, ◌*◌, ◌/◌, ◌^◌, ◌<◌, ◌≤◌, [], ◌∷◌, ◌++◌, length, drop};
ghost use Rattle.encoding.specs.Writing.{Written};
ghost use Rattle.recordings.specs.Layout.{encoded};

use crate::WriteRefusal;
use crate::contents::Contents;
use crate::parts::put_each;
use recordings::{ChannelEntry, ENDING_BYTES, ENTRY_BYTES, NUMBER_BYTES};

/// The last four numbers: the place of the entries, the count of rows, the
/// count of channels and the edition.
fn ending_of(place: usize, numbers: usize, channels: usize) -> [u32; 4]
    requires place_fits { place < 2 ^ 32 }
    requires numbers_fit { numbers < 2 ^ 32 }
    requires some { 1 ≤ channels }
    requires few { channels ≤ 8 }
    ensures { result ≡ place ∷ numbers / channels ∷ channels ∷ 1 ∷ [] }
{
    let rows = numbers / channels;
    [place as u32, rows as u32, channels as u32, 1]
}

impl Contents<'_> {
    /// All parts into the front of the output, one after another, and where they end.
    fn put(&self, out: &mut [u8]) -> usize
        requires some { 1 ≤ length self.now.entries.now }
        requires few { length self.now.entries.now ≤ 8 }
        requires in_room { length self.now.note.now + 4 * length self.now.rows.now + 8 * length self.now.entries.now + 16 ≤ length out.old }
        requires in_limit { length self.now.note.now + 4 * length self.now.rows.now < 2 ^ 32 }
        ensures end { result ≡ length self.now.note.now + 4 * length self.now.rows.now + 8 * length self.now.entries.now + 16 }
        ensures after { out.new ≡ encoded self.now.note.now self.now.rows.now self.now.entries.now ++ drop result out.old }
    {
        let rows_at = self.note.len();
        let place = rows_at + NUMBER_BYTES * self.rows.len();
        let ending_at = place + ENTRY_BYTES * self.entries.len();
        let end = ending_at + ENDING_BYTES;
        let ending = ending_of(place, self.rows.len(), self.entries.len());
        put_each(&mut out[..rows_at], self.note);
        put_each(&mut out[rows_at..place], self.rows);
        put_each(&mut out[place..ending_at], self.entries);
        put_each(&mut out[ending_at..end], &ending);
        end
    }
}

/// Writes the recording of the note, the rows (all numbers of a row, then those
/// of the next) and the entries into the front of the buffer, leaves the rest
/// of it, and answers the length; or tells the first check that fails.
pub fn write(
    out: &mut [u8],
    note: &[u8],
    rows: &[u32],
    entries: &[ChannelEntry],
) -> Result<usize, WriteRefusal>
    ensures { Written out.old note.now rows.now entries.now result out.new }
{
    let contents = Contents {
        note,
        rows,
        entries,
    };
    contents.check(out.len())?;
    Ok(contents.put(out))
}
