// A whole text as its recording.
ghost use Rattle.std.specs.Prelude.{◌≡◌, [], ◌∷◌, ◌<◌, Ok, Err, length, vec_items, MatchResult};
ghost use Rattle.sheets.specs.Whole.{ComesTo, Reads, Recorded, lines_of};
ghost use Rattle.sheets.specs.declared.whole.NotRecorded.TheVariants.{Line, Unwritten};

use crate::errors::BadSheet;
use crate::lines::Sheet;
use crate::making::RecordError;
use std::alloc::Global;

/// A bad line with its number, counted from 1; the end of the text is the line after the last.
#[derive(Clone, Copy, PartialEq, Eq, Debug)]
pub struct BadLine {
    pub line: usize,
    pub bad: BadSheet,
}

/// Why a text is not recorded: a line of it is bad, or its sheet is not written.
#[derive(Clone, Copy, PartialEq, Eq, Debug)]
pub enum NotRecorded {
    Line(BadLine),
    Unwritten(RecordError),
}

impl From<BadLine> for NotRecorded {
    ghost from_gives = { λ e r. r ≡ Line e };

    fn from(e: BadLine) -> NotRecorded {
        NotRecorded::Line(e)
    }
}

impl From<RecordError> for NotRecorded {
    ghost from_gives = { λ e r. r ≡ Unwritten e };

    fn from(e: RecordError) -> NotRecorded {
        NotRecorded::Unwritten(e)
    }
}

/// The first line of a text that is not empty, without its line feed, and what stands after it.
fn first_line(text: &[u8]) -> (&[u8], &[u8])
    requires { 0 < length text.now }
    ensures cut { lines_of text.now ≡ result.0.now ∷ lines_of result.1.now }
    ensures shorter { length result.1.now < length text.now }
{
    let end = text.iter().position(|&b| b == b'\n').unwrap_or(text.len());
    (&text[..end], text.get(end + 1..).unwrap_or(&[]))
}

/// A sheet whose text ends at this line, or what is wrong with that end.
pub(crate) fn ended(sheet: Sheet, line: usize) -> Result<Sheet, BadLine>
    ensures { ComesTo sheet line [] result }
{
    sheet.end().map_err(|bad| BadLine { line, bad })?;
    Ok(sheet)
}

/// The sheet of all lines of a text.
fn collected(heap: Global, text: &[u8]) -> Result<Sheet, BadLine>
    ensures { Reads text.now result }
{
    let mut sheet = Sheet::new(heap);
    // Counted by hand, as the line after the last has a number too.
    let mut line = 1;
    let mut rest = text;
    while !rest.is_empty() {
        let (first, after) = first_line(rest);
        sheet = sheet.line(first).map_err(|bad| BadLine { line, bad })?;
        rest = after;
        line += 1;
    }
    ended(sheet, line)
}

/// The recording of a table that is given as text.
pub fn recorded(heap: Global, text: &[u8]) -> Result<Vec<u8>, NotRecorded>
    ensures { MatchResult result (λ v. Recorded text.now (Ok v.items)) (λ e. Recorded text.now (Err e)) }
{
    let bytes = collected(heap, text)?.record(heap)?;
    Ok(bytes)
}
