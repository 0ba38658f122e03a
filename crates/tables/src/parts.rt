// What a line of a table is, by its first word.
ghost use Rattle.std.specs.Prelude.{◌≡◌};
ghost use Rattle.tables.specs.Lines.{part_of, part_of_word};

use crate::splitting::first_word;

/// What a line of a table is: one to pass over, the note, the moduli, the bounds or a row.
#[derive(Clone, Copy, PartialEq, Eq, Debug)]
pub enum Part {
    Passed,
    Note,
    Moduli,
    Bounds,
    Row,
}

/// What a line is that begins with this word.
fn part_of_word(word: &[u8]) -> Part
    ensures { result ≡ part_of_word word.now }
{
    match word {
        b"note" => Part::Note,
        b"moduli" => Part::Moduli,
        b"bounds" => Part::Bounds,
        _ => Part::Row,
    }
}

/// What this line is: passed over where it has no word or begins with `#`, else by its first word.
pub fn part_of(line: &[u8]) -> Part
    ensures { result ≡ part_of line.now }
{
    if let [b'#', ..] = line {
        return Part::Passed;
    }
    match first_word(line) {
        None => Part::Passed,
        Some((word, _)) => part_of_word(word),
    }
}
