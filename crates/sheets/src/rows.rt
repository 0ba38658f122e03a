// The parts of a printed table: entries, rows and their numbers.
ghost use Rattle.std.specs.Prelude.{◌≡◌, ℕ, ◌/◌, ◌<◌, length, Some};
ghost use Rattle.std.specs.Fmt.{WritesOnOk};
ghost use Rattle.recordings.specs.declared.entries.ChannelEntry.{ChannelEntry};
ghost use Rattle.recordings.specs.Contents.{entries_of, rows_of};
ghost use Rattle.sheets.specs.Rows.{bound_of, cells, figure_words, gap_of, modulus_of, row_lines, word_of};

use recordings::{ChannelEntry, Recording};
use std::fmt;

/// The number that is printed as a dash.
const DARK: u32 = u32::MAX;

/// A number of a row.
#[derive(Clone, Copy)]
struct Word(u32);

impl fmt::Display for Word {
    ghost output = { λ x. Some (word_of (Some x.0)) };

    fn fmt<W: fmt::Write>(&self, f: &mut fmt::Formatter<W>) -> fmt::Result {
        match self.0 {
            DARK => f.write_str("-"),
            number => write!(f, "{number}"),
        }
    }
}

/// What stands before the number of a channel.
fn gap(channel: usize) -> &'static str
    ensures { result.now ≡ gap_of channel }
{
    if channel == 0 { "" } else { " " }
}

/// A row of a recording.
#[derive(Clone, Copy)]
struct Row<'a> {
    recording: Recording<'a>,
    row: usize,
    ghost there: { row < length (rows_of recording) / length (entries_of recording) },
}

impl fmt::Display for Row<'_> {
    ghost output = { λ x. Some (cells (rows_of x.recording) (length (entries_of x.recording)) x.row (length (entries_of x.recording))) };

    fn fmt<W: fmt::Write>(&self, f: &mut fmt::Formatter<W>) -> fmt::Result {
        for (channel, number) in self.recording.row(self.row).enumerate() {
            let gap = gap(channel);
            let word = Word(number);
            write!(f, "{gap}{word}")?;
        }
        Ok(())
    }
}

/// All rows of a recording, each on a line.
#[derive(Clone, Copy)]
pub(crate) struct Rows<'a>(pub(crate) Recording<'a>);

impl fmt::Display for Rows<'_> {
    ghost output = { λ x. Some (row_lines (rows_of x.0) (length (entries_of x.0)) (length (rows_of x.0) / length (entries_of x.0))) };

    fn fmt<W: fmt::Write>(&self, f: &mut fmt::Formatter<W>) -> fmt::Result {
        // By number, by which a recording gives a row.
        for row in 0..self.0.row_count() {
            let line = Row {
                recording: self.0,
                row,
            };
            write!(f, "{line}\n")?;
        }
        Ok(())
    }
}

/// Writes what `figure` picks of each entry, each after a space.
fn write_figures<W: fmt::Write, F: Fn(ChannelEntry) -> u32>(
    f: &mut fmt::Formatter<W>,
    recording: &Recording,
    figure: F,
) -> fmt::Result
    requires { F.IsAlwaysCallable figure }
    ensures { (figure_of : ChannelEntry → ℕ) → ((e : ChannelEntry) (n : ℕ) → F.post figure e n → n ≡ figure_of e) → WritesOnOk W.write_str_gives f.old result (figure_words figure_of (entries_of recording.now)) f.new }
{
    for entry in recording.entries() {
        write!(f, " {}", figure(entry))?;
    }
    Ok(())
}

/// The moduli of a recording, each after a space.
#[derive(Clone, Copy)]
pub(crate) struct Moduli<'a>(pub(crate) Recording<'a>);

impl fmt::Display for Moduli<'_> {
    ghost output = { λ x. Some (figure_words modulus_of (entries_of x.0)) };

    fn fmt<W: fmt::Write>(&self, f: &mut fmt::Formatter<W>) -> fmt::Result {
        write_figures(f, &self.0, |entry| entry.modulus)
    }
}

/// The bounds of a recording, each after a space.
// A type beside the one of the moduli, so that each has its text; the function is one.
#[derive(Clone, Copy)]
pub(crate) struct Bounds<'a>(pub(crate) Recording<'a>);

impl fmt::Display for Bounds<'_> {
    ghost output = { λ x. Some (figure_words bound_of (entries_of x.0)) };

    fn fmt<W: fmt::Write>(&self, f: &mut fmt::Formatter<W>) -> fmt::Result {
        write_figures(f, &self.0, |entry| entry.bound)
    }
}
