// What is wrong with the text of a table that is to be recorded.
ghost use Rattle.std.specs.Prelude.{◌≡◌, Some};
ghost use Rattle.sheets.specs.Messages.{sheet_message};
ghost use Rattle.sheets.specs.declared.errors.BadSheet.TheVariants.{NotTable};
ghost use Rattle.tables.specs.declared.errors.BadText.TheVariants.{NoMemory};

use std::alloc::AllocError;
use std::fmt;
use tables::BadText;

/// What is wrong with a line, or with the end of the input: the text is no
/// table, or its lines do not have the same length.
#[derive(Clone, Copy, PartialEq, Eq, Debug)]
pub enum BadSheet {
    NotTable(BadText),
    UnevenBounds { bounds: usize, moduli: usize },
    UnevenRow { numbers: usize, moduli: usize },
}

impl From<BadText> for BadSheet {
    ghost from_gives = { λ e r. r ≡ NotTable e };

    fn from(e: BadText) -> BadSheet {
        BadSheet::NotTable(e)
    }
}

impl From<AllocError> for BadSheet {
    ghost from_gives = { λ _ r. r ≡ NotTable NoMemory };

    fn from(_e: AllocError) -> BadSheet {
        BadSheet::NotTable(BadText::NoMemory)
    }
}

impl fmt::Display for BadSheet {
    ghost output = { λ e. Some (sheet_message e) };

    fn fmt<W: fmt::Write>(&self, f: &mut fmt::Formatter<W>) -> fmt::Result {
        match self {
            BadSheet::NotTable(bad) => write!(f, "{bad}"),
            BadSheet::UnevenBounds { bounds, moduli } => {
                write!(f, "{bounds} bounds for {moduli} moduli")
            }
            BadSheet::UnevenRow { numbers, moduli } => {
                write!(f, "a row of {numbers} for {moduli} moduli")
            }
        }
    }
}
