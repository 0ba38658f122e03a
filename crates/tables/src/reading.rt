// The numbers of a line, word by word.
ghost use Rattle.std.specs.Prelude.{◌≡◌, [], drop, vec_capacity};
ghost use Rattle.tables.specs.Numbers.{misread_at, number_at, numbers_from, Filled};
ghost use Rattle.tables.specs.Tables.{is_row};
ghost use Rattle.tables.specs.Words.{words};

use crate::errors::BadText;
use crate::numerals::{NoNumber, number};
use crate::parts::Part;
use crate::splitting::Words;

/// What `-` stands for in a row.
const DARK: u32 = 4294967295;

/// The bad text that a word at a place is.
// No `From`, as the place is told, too.
fn misread(why: NoNumber, place: usize) -> BadText
    ensures { result ≡ misread_at place why }
{
    match why {
        NoNumber::NotDigits => BadText::NotNumber { word: place },
        NoNumber::TooLarge => BadText::TooLarge { word: place },
    }
}

/// The number at a place of such a line; `-` is one only in a row, the largest.
fn number_at(part: Part, place: usize, word: &[u8]) -> Result<u32, BadText>
    ensures { result ≡ number_at (is_row part) place word.now }
{
    match (word, part) {
        (b"-", Part::Row) => Ok(DARK),
        (b"-", _) => Err(BadText::Dash { word: place }),
        _ => number(word).map_err(|why| misread(why, place)),
    }
}

/// Fills `numbers` with the numbers of such a line, which stand after so many words of it.
pub fn read_numbers(
    part: Part,
    text: &[u8],
    before: usize,
    numbers: &mut Vec<u32>,
) -> Result<(), BadText>
    ensures { Filled (vec_capacity numbers.old) (words text.now) (numbers_from (is_row part) before (drop before (words text.now))) result numbers.new.items }
{
    numbers.clear();
    for (i, word) in Words::new(text).enumerate().skip(before) {
        numbers.push(number_at(part, i + 1, word)?)?;
    }
    Ok(())
}
