// A table read line by line: what was seen so far, and what each line is after that.
ghost use Rattle.std.specs.Prelude.{◌≡◌, ℕ, ◌&&◌, List, [], ◌∷◌, vec_capacity, OnOk};
ghost use Rattle.tables.specs.Numbers.{Filled};
ghost use Rattle.tables.specs.declared.parts.Part.TheVariants.{Row};
ghost use Rattle.tables.specs.Spelling.{ReadsBack};
ghost use Rattle.tables.specs.Tables.{allowed, numbers_of, seen_after, seen_in, Taken};
ghost use Rattle.tables.specs.Words.{words};

use crate::errors::BadText;
use crate::parts::{Part, part_of};
use crate::reading::read_numbers;

/// Which lines of a table's heading were seen so far.
// A flag for each of them, not a set of parts: theorems name the flags, and of rows there is none.
#[derive(Clone, Copy, PartialEq, Eq, Debug)]
pub struct Heading {
    note: bool,
    moduli: bool,
    bounds: bool,
}

impl Heading {
    /// Nothing was seen yet.
    pub fn new() -> Heading
        ensures { result ≡ seen_in [] }
    {
        Heading {
            note: false,
            moduli: false,
            bounds: false,
        }
    }

    /// Whether both lines were seen that stand before the rows.
    pub fn is_complete(&self) -> bool
        ensures { result ≡ (self.now.moduli && self.now.bounds) }
    {
        self.moduli && self.bounds
    }

    /// What is wrong with a table that ends here, if anything is.
    pub fn end(&self) -> Result<(), BadText>
        ensures { result ≡ allowed self.now Row }
    {
        self.allow(Part::Row)
    }

    /// Reads the next line: what it is, with its numbers in place of those in `numbers`.
    /// With bad text, or with no room for the numbers, nothing was seen and `numbers` is empty.
    /// The law says that what is written with single spaces is read back.
    #[tactic(auto, using(crate::proofs::Back::reads_back))]
    pub fn line(&mut self, text: &[u8], numbers: &mut Vec<u32>) -> Result<Part, BadText>
        ensures law { ReadsBack }
        ensures seen { (past : List (List ℕ)) → self.old ≡ seen_in past → OnOk result (self.new ≡ seen_in (text.now ∷ past)) }
        ensures taken { Taken self.old text.now (vec_capacity numbers.old) result numbers.new.items self.new }
    {
        numbers.clear();
        let part = part_of(text);
        self.allow(part)?;
        // In an `inspect_err` a closure would change `numbers`, and of what is in it then, nothing was proved.
        if let Err(bad) = fill(part, text, numbers) {
            numbers.clear();
            return Err(bad);
        }
        *self = self.after(part);
        Ok(part)
    }

    /// Whether such a line may stand here.
    fn allow(&self, part: Part) -> Result<(), BadText>
        ensures { result ≡ allowed self.now part }
    {
        match part {
            Part::Note if self.note => Err(BadText::SecondNote),
            Part::Note if self.moduli || self.bounds => Err(BadText::LateNote),
            Part::Moduli if self.moduli => Err(BadText::SecondModuli),
            Part::Bounds if self.bounds => Err(BadText::SecondBounds),
            Part::Row if !self.moduli => Err(BadText::NoModuli),
            Part::Row if !self.bounds => Err(BadText::NoBounds),
            _ => Ok(()),
        }
    }

    /// What was seen once such a line was, too.
    fn after(self, part: Part) -> Heading
        ensures { result ≡ seen_after part self }
    {
        match part {
            Part::Note => Heading { note: true, ..self },
            Part::Moduli => Heading {
                moduli: true,
                ..self
            },
            Part::Bounds => Heading {
                bounds: true,
                ..self
            },
            Part::Row | Part::Passed => self,
        }
    }
}

/// Fills `numbers` with the numbers of a line.
fn fill(part: Part, text: &[u8], numbers: &mut Vec<u32>) -> Result<(), BadText>
    ensures { Filled (vec_capacity numbers.old) (words text.now) (numbers_of part (words text.now)) result numbers.new.items }
{
    match part {
        Part::Passed | Part::Note => {
            numbers.clear();
            Ok(())
        }
        Part::Moduli | Part::Bounds => read_numbers(part, text, 1, numbers),
        Part::Row => read_numbers(part, text, 0, numbers),
    }
}
