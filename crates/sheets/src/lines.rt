// A table as it is collected, line after line.
ghost use Rattle.std.specs.Prelude.{◌≡◌, [], length, MatchResult, ◌≢◌};
ghost use Rattle.sheets.specs.Lines.{Collects, Even, Holds, Uneven, end_of};
ghost use Rattle.sheets.specs.declared.errors.BadSheet.TheVariants.{UnevenBounds, UnevenRow};
ghost use Rattle.tables.specs.declared.parts.Part.TheVariants.{Row};
ghost use Rattle.tables.specs.Tables.{allowed, seen_in};

use crate::errors::BadSheet;
use crate::notes::note_text;
use std::alloc::Global;
use std::mem;
use tables::{Heading, Part};

/// What was collected of a table: its note, moduli and bounds, and the numbers
/// of all rows, row after row.
// Moduli and bounds are two lists, since they stand in two lines, either of which may come first.
#[derive(Drop)]
pub struct Sheet {
    pub(crate) heading: Heading,
    pub(crate) numbers: Vec<u32>,
    pub(crate) note: Vec<u8>,
    pub(crate) moduli: Vec<u32>,
    pub(crate) bounds: Vec<u32>,
    pub(crate) rows: Vec<u32>,
}

impl Sheet {
    /// Before the first line.
    pub fn new(heap: Global) -> Sheet
        ensures { Holds result (seen_in []) [] [] [] [] }
    {
        Sheet {
            heading: Heading::new(),
            numbers: Vec::new(heap),
            note: Vec::new(heap),
            moduli: Vec::new(heap),
            bounds: Vec::new(heap),
            rows: Vec::new(heap),
        }
    }

    /// Takes the next line: a good one adds what it has, and a bad one ends the collection.
    pub fn line(mut self, text: &[u8]) -> Result<Sheet, BadSheet>
        ensures { Collects self text.now result }
    {
        match self.heading.line(text, &mut self.numbers)? {
            Part::Passed => {}
            Part::Note => {
                self.note.clear();
                self.note.extend_from_slice(note_text(text))?;
            }
            Part::Moduli => {
                mem::swap(&mut self.moduli, &mut self.numbers);
                self.check_bounds()?;
            }
            Part::Bounds => {
                mem::swap(&mut self.bounds, &mut self.numbers);
                self.check_bounds()?;
            }
            Part::Row => {
                self.check_row()?;
                self.rows.extend_from_slice(self.numbers.as_slice())?;
            }
        }
        Ok(self)
    }

    /// What is wrong with a table that ends here, if anything is.
    pub fn end(&self) -> Result<(), BadSheet>
        ensures { result ≡ end_of (allowed self.now.heading Row) }
    {
        self.heading.end()?;
        Ok(())
    }

    /// That there are as many bounds as moduli, once there are both.
    fn check_bounds(&self) -> Result<(), BadSheet>
        ensures { MatchResult result (λ _. Even self.now.heading self.now.moduli.items self.now.bounds.items) (λ e. (e ≡ UnevenBounds (length self.now.bounds.items) (length self.now.moduli.items)) × Uneven self.now.heading self.now.moduli.items self.now.bounds.items (length self.now.bounds.items) (length self.now.moduli.items)) }
    {
        let moduli = self.moduli.len();
        let bounds = self.bounds.len();
        if self.heading.is_complete() && bounds != moduli {
            return Err(BadSheet::UnevenBounds { bounds, moduli });
        }
        Ok(())
    }

    /// That the line's numbers are a row: as many as there are moduli.
    fn check_row(&self) -> Result<(), BadSheet>
        ensures { MatchResult result (λ _. length self.now.numbers.items ≡ length self.now.moduli.items) (λ e. (e ≡ UnevenRow (length self.now.numbers.items) (length self.now.moduli.items)) × (length self.now.numbers.items ≢ length self.now.moduli.items)) }
    {
        let numbers = self.numbers.len();
        let moduli = self.moduli.len();
        if numbers != moduli {
            return Err(BadSheet::UnevenRow { numbers, moduli });
        }
        Ok(())
    }
}
