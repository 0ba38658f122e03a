// What is wrong with the text of a table.
ghost use Rattle.std.specs.Prelude.{◌≡◌, Some};
ghost use Rattle.tables.specs.Messages.{message_of};
ghost use Rattle.tables.specs.declared.errors.BadText.TheVariants.{NoMemory};

use std::alloc::{AllocError, AllocFailed};
use std::fmt;

/// What is wrong with a line, or with the end of the input. A word goes by its place in the line, from 1.
#[derive(Clone, Copy, PartialEq, Eq, Debug)]
pub enum BadText {
    NoModuli,
    NoBounds,
    SecondModuli,
    SecondBounds,
    SecondNote,
    LateNote,
    NotNumber { word: usize },
    TooLarge { word: usize },
    Dash { word: usize },
    NoMemory,
}

// Two impls, as `?` meets both errors of std, and one for all that become an `AllocError` would cross `From<T> for T`.
impl From<AllocError> for BadText {
    ghost from_gives = { λ _ r. r ≡ NoMemory };

    fn from(_e: AllocError) -> BadText {
        BadText::NoMemory
    }
}

impl<T: Drop> From<AllocFailed<T>> for BadText {
    ghost from_gives = { λ _ r. r ≡ NoMemory };

    fn from(_e: AllocFailed<T>) -> BadText {
        BadText::NoMemory
    }
}

impl fmt::Display for BadText {
    ghost output = { λ e. Some (message_of e) };

    fn fmt<W: fmt::Write>(&self, f: &mut fmt::Formatter<W>) -> fmt::Result {
        match self {
            BadText::NoModuli => f.write_str("no moduli line"),
            BadText::NoBounds => f.write_str("no bounds line"),
            BadText::SecondModuli => f.write_str("a second moduli line"),
            BadText::SecondBounds => f.write_str("a second bounds line"),
            BadText::SecondNote => f.write_str("a second note"),
            BadText::LateNote => f.write_str("a note after the moduli or bounds line"),
            BadText::NotNumber { word } => write!(f, "word {word} is no number"),
            BadText::TooLarge { word } => write!(f, "word {word} is above 4294967295"),
            BadText::Dash { word } => write!(f, "word {word} is a dash, which stands only in rows"),
            BadText::NoMemory => f.write_str("out of memory"),
        }
    }
}
