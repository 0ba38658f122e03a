// One channel of a recording, and one read of it.
ghost use Rattle.std.specs.Prelude.{◌≡◌, ◌<◌, drop, MatchOption, Some, None};
ghost use Rattle.heads.specs.Answers.{Reads};
ghost use Rattle.heads.specs.PhaseTables.{table_told, table_waits};
ghost use Rattle.recordings.specs.Contents.{column_of, entries_of};
ghost use Rattle.std.specs.List.{slice_get};

use heads::{Figures, HeadFault, Plate, advance, fit_figures, phase_reading};
use recordings::{ChannelEntry, Recording};

/// The most channels that a recording has.
pub(crate) const MOST: usize = 8;

/// The numbers of one channel of a recording, from the first row to the last.
#[derive(Clone, Copy)]
pub(crate) struct Column<'a> {
    recording: Recording<'a>,
    channel: usize,
    entry: ChannelEntry,
    ghost known: { slice_get (entries_of recording) channel ≡ Some entry },
}

impl<'a> Column<'a> {
    ghost use Rattle.playbacks.specs.Columns.{IsColumn};
    ghost use Rattle.playbacks.specs.Playing.{few_entries};

    /// The column of a channel, where the recording has it and has few enough.
    pub(crate) fn of(recording: Recording<'a>, channel: usize) -> Option<Column<'a>>
        ensures { MatchOption result (slice_get (few_entries recording.entry) channel ≡ None) (IsColumn recording.entry channel) }
    {
        if recording.channel_count() > MOST {
            return None;
        }
        let entry = recording.entry(channel)?;
        Some(Column {
            recording,
            channel,
            entry,
        })
    }

    /// The figures of its channel.
    pub(crate) fn figures(&self) -> Figures
        ensures { result ≡ table_told self.now.entry.modulus self.now.entry.bound }
    {
        self.entry.figures()
    }

    /// Reads the number of the row `at`, which then stands behind it.
    pub(crate) fn read(&self, at: &mut usize) -> Result<u32, HeadFault>
        ensures { let e = self.now.entry in
            let xs = column_of self.now.recording self.now.channel in
            Reads (table_told e.modulus e.bound) (table_waits e.modulus e.bound (drop at.old xs)) result (table_told e.modulus e.bound) (table_waits e.modulus e.bound (drop at.new xs)) }
    {
        fit_figures(&self.entry)?;
        let row = advance(at, self.recording.row_count()).ok_or(HeadFault::End)?;
        let Some(number) = self.recording.number(row, self.channel) else {
            unreachable()
        };
        phase_reading(self.entry.modulus, number)
    }
}
