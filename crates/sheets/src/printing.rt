// A recording printed as a table.
ghost use Rattle.std.specs.Prelude.{◌≡◌, ◌++◌, IfOk, string_bytes, codes, MatchBool, MatchOption};
ghost use Rattle.recordings.specs.Contents.{entries_of, note_of, rows_of};
ghost use Rattle.recordings.specs.Refusals.{check_fault};
ghost use Rattle.tables.specs.Answers.{refusal_line};
ghost use Rattle.sheets.specs.Headings.{HeadingsBack};
ghost use Rattle.sheets.specs.Printing.{IsText, Noted, Printed, Visible, visible};
ghost use Rattle.sheets.specs.Rows.{table_of};
ghost use Rattle.std.specs.List.{AllByRecursion};

use crate::rows::{Bounds, Moduli, Rows};
use recordings::{CheckRefusal, Recording};
use std::alloc::{AllocError, Global};
use std::str::from_utf8;
use tables::refusal_line;

/// Whether a byte is no control byte.
fn is_visible(byte: u8) -> bool
    ensures { result ≡ visible byte }
{
    !byte.is_ascii_control()
}

/// Whether every byte is visible.
fn all_visible(note: &[u8]) -> bool
    ensures { MatchBool result (AllByRecursion Visible note.now) (AllByRecursion Visible note.now → ⊥) }
{
    note.iter().all(|&byte| is_visible(byte))
}

/// A note that is one line of text.
fn text_of(note: &[u8]) -> Option<&str>
    ensures { MatchOption result (IsText note.now → ⊥) (λ s. IsText note.now × (s.now ≡ note.now)) }
{
    if note.is_empty() || !all_visible(note) {
        return None;
    }
    from_utf8(note).ok()
}

/// The lines after the note.
fn table(heap: Global, recording: &Recording) -> Result<String, AllocError>
    ensures { IfOk result (λ s. string_bytes s ≡ table_of (rows_of recording.now) (entries_of recording.now)) }
{
    let moduli = Moduli(*recording);
    let bounds = Bounds(*recording);
    let rows = Rows(*recording);
    format!(in heap; "moduli{moduli}\nbounds{bounds}\n{rows}")
}

/// A table with a note before it.
fn with_note(heap: Global, note: &str, table: &str) -> Result<String, AllocError>
    ensures { IfOk result (λ s. string_bytes s ≡ codes "note " ++ (note.now ++ (codes "\n" ++ table.now))) }
{
    format!(in heap; "note {note}\n{table}")
}

/// The table of a recording, with its note where that is a line of text.
fn noted(heap: Global, recording: &Recording) -> Result<String, AllocError>
    ensures { IfOk result (λ s. Noted (note_of recording.now) (table_of (rows_of recording.now) (entries_of recording.now)) (string_bytes s)) }
{
    let table = table(heap, recording)?;
    match text_of(recording.note()) {
        Some(note) => with_note(heap, note, table.as_str()),
        None => Ok(table),
    }
}

/// The line of a refusal.
fn refused(heap: Global, refusal: CheckRefusal) -> Result<String, AllocError>
    ensures { IfOk result (λ s. string_bytes s ≡ refusal_line (check_fault refusal) ++ codes "\n") }
{
    let line = refusal_line(heap, refusal.into())?;
    format!(in heap; "{line}\n")
}

/// The text that these bytes are printed as: the table of the recording that
/// they are, or the line of the check's refusal.
/// The law says that the lines before the rows are read back.
#[tactic(auto, using(crate::proofs::Returning::headings_back))]
pub fn printed(heap: Global, bytes: &[u8]) -> Result<String, AllocError>
    ensures law { HeadingsBack }
    ensures text { IfOk result (λ s. Printed bytes.now (string_bytes s)) }
{
    match Recording::check(bytes) {
        Ok(recording) => noted(heap, &recording),
        Err(refusal) => refused(heap, refusal),
    }
}
