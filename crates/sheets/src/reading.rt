// A table as its recording, line after line as a reader gives it.
ghost use Rattle.std.specs.Prelude.{◌≡◌, Ok, Err, IfSome, MatchResult, vec_items};
ghost use Rattle.sheets.specs.Reading.{Misread};
ghost use Rattle.sheets.specs.Whole.{Reads, Recorded};
ghost use Rattle.sheets.specs.declared.reading.Unrecorded.TheVariants.{Unread, Unmade};
ghost use Rattle.sheets.specs.declared.whole.NotRecorded.TheVariants.{Line, Unwritten};

use crate::lines::Sheet;
use crate::making::RecordError;
use crate::whole::{BadLine, NotRecorded, ended};
use std::alloc::Global;
use std::io;
use std::io::BufRead;

/// Why what a reader gives is not recorded: it could not be read, or the text makes no recording.
#[derive(Drop)]
pub enum Unrecorded {
    Unread(io::Error),
    Unmade(NotRecorded),
}

impl From<io::Error> for Unrecorded {
    ghost from_gives = { λ e r. r ≡ Unread e };

    fn from(e: io::Error) -> Unrecorded {
        Unrecorded::Unread(e)
    }
}

impl From<BadLine> for Unrecorded {
    ghost from_gives = { λ e r. r ≡ Unmade (Line e) };

    fn from(e: BadLine) -> Unrecorded {
        Unrecorded::Unmade(NotRecorded::Line(e))
    }
}

impl From<RecordError> for Unrecorded {
    ghost from_gives = { λ e r. r ≡ Unmade (Unwritten e) };

    fn from(e: RecordError) -> Unrecorded {
        Unrecorded::Unmade(NotRecorded::Unwritten(e))
    }
}

/// The sheet of all lines that a reader gives. No line is read after a bad one.
fn collected_from<B: BufRead + Drop>(heap: Global, input: B) -> Result<Sheet, Unrecorded>
    ensures { IfSome (B.Read.remaining input) (λ text. MatchResult result (λ s. Reads text (Ok s)) (Misread text)) }
{
    let mut sheet = Sheet::new(heap);
    // Counted by hand, as the line after the last has a number too.
    let mut line: usize = 1;
    for text in input.split(heap, b'\n') {
        let text = text?;
        sheet = sheet
            .line(text.as_slice())
            .map_err(|bad| BadLine { line, bad })?;
        line = line.saturating_add(1);
    }
    Ok(ended(sheet, line)?)
}

/// The recording of a table that a reader gives, line after line.
pub fn recorded_from<B: BufRead + Drop>(heap: Global, input: B) -> Result<Vec<u8>, Unrecorded>
    ensures { IfSome (B.Read.remaining input) (λ text. MatchResult result (λ v. Recorded text (Ok v.items)) (Misread text)) }
{
    let bytes = collected_from(heap, input)?.record(heap)?;
    Ok(bytes)
}
