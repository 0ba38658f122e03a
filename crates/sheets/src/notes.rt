// The text of a note line.
ghost use Rattle.std.specs.Prelude.{◌≡◌, ◌≤◌, length};
ghost use Rattle.sheets.specs.Notes.{note_text, unspaced};

/// The bytes of `note` and one space.
const NOTE_BYTES: usize = 5;

/// A line without the spaces in front of it.
fn without_spaces(line: &[u8]) -> &[u8]
    ensures { result.now ≡ unspaced line.now }
{
    let mut rest = line;
    while let [b' ', after @ ..] = rest {
        rest = after;
    }
    rest
}

/// The text of a note line: what follows `note` and one space, to the end of the line.
pub(crate) fn note_text(line: &[u8]) -> &[u8]
    ensures { result.now ≡ note_text line.now }
{
    without_spaces(line).get(NOTE_BYTES..).unwrap_or(&[])
}
