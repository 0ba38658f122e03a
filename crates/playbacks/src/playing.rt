// A recording as a bank.
ghost use Rattle.std.specs.Prelude.{◌≡◌, ◌<◌, ◌≤◌, [], length, if◌then◌else◌, nat_le};
ghost use Rattle.playbacks.specs.Columns.{Found};
ghost use Rattle.playbacks.specs.Playing.{PlayedBytes, Plays, playback_channels};
ghost use Rattle.playbacks.specs.PlayingLaws.{playback_laws};
ghost use Rattle.recordings.specs.Contents.{entries_of, rows_of};

use crate::columns::{Column, MOST};
use banks::{Bank, BankFault};
use heads::Figures;
use recordings::Recording;

/// A recording that is read, or none; each channel stands at a row of its own.
#[derive(Clone, Copy)]
pub struct Playback<'a> {
    recording: Option<Recording<'a>>,
    // An array of all rows that may be: no heap.
    rows: [usize; MOST],
}

impl<'a> Playback<'a> {
    /// A checked recording from its first row on: each channel is a phase table over its column.
    pub fn new(recording: Recording<'a>) -> Playback<'a>
        ensures many { 8 < length (entries_of recording.entry) → ⟦<Playback<'a> as Bank>⟧.channels result ≡ [] }
        ensures plays { length (entries_of recording.entry) ≤ 8 → Plays (rows_of recording.entry) (entries_of recording.entry) (⟦<Playback<'a> as Bank>⟧.channels result) }
    {
        Playback {
            recording: Some(recording),
            rows: [0; MOST],
        }
    }

    /// The recording that these bytes are, from its first row on; bytes that are none have no channel.
    pub fn of(bytes: &'a [u8]) -> Playback<'a>
        ensures { PlayedBytes bytes.now (⟦<Playback<'a> as Bank>⟧.channels result) }
    {
        Playback {
            recording: Recording::check(bytes).ok(),
            rows: [0; MOST],
        }
    }

    // The column of a channel that is played.
    fn column(&self, channel: usize) -> Result<Column<'a>, BankFault>
        ensures { Found self.now.recording channel result }
    {
        self.recording
            .and_then(|recording| Column::of(recording, channel))
            .ok_or(BankFault::NoSuchChannel { channel })
    }
}

// How many channels are played of so many.
fn few(channels: usize) -> usize
    ensures { result ≡ (if nat_le channels 8 then channels else 0) }
{
    if channels <= MOST { channels } else { 0 }
}

impl<'a> Bank for Playback<'a> {
    ghost channels = { λ s. playback_channels s.recording s.rows };

    ghost laws = { λ s. playback_laws s.recording s.rows };

    fn count(&self) -> usize {
        self.recording
            .map_or(0, |recording| few(recording.channel_count()))
    }

    fn figures(&self, channel: usize) -> Result<Figures, BankFault> {
        let column = self.column(channel)?;
        Ok(column.figures())
    }

    fn read(&mut self, channel: usize) -> Result<u32, BankFault> {
        let column = self.column(channel)?;
        let answer = column.read(&mut self.rows[channel]);
        answer.map_err(|fault| BankFault::from(fault).at(channel))
    }
}
