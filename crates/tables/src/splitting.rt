// The words of a line: its runs of bytes other than the space.
ghost use Rattle.std.specs.Prelude.{◌≡◌, ◌<◌, [], ◌∷◌, length, IfSome, MatchOption};
ghost use Rattle.tables.specs.Spelling.{WordsLaw};
ghost use Rattle.tables.specs.Words.{words};

const SPACE: u8 = b' ';

/// The first word of a text and what stands after it, or `None` where it has no word.
/// The law says what the words of any text are.
#[tactic(auto, using(crate::proofs::Spells::words_law))]
pub fn first_word(text: &[u8]) -> Option<(&[u8], &[u8])>
    ensures law { WordsLaw }
    ensures cut { MatchOption result (words text.now ≡ []) (λ p. words text.now ≡ p.0.now ∷ words p.1.now) }
    ensures shorter { IfSome result (λ p. length p.1.now < length text.now) }
{
    let start = text.iter().position(|&b| b != SPACE)?;
    let text = &text[start..];
    let end = text.iter().position(|&b| b == SPACE).unwrap_or(text.len());
    Some(text.split_at(end))
}

/// The words of a text, one after another.
#[derive(Drop)]
pub struct Words<'a> {
    rest: &'a [u8],
}

impl<'a> Words<'a> {
    ghost use Rattle.tables.specs.Splitting.{text_left};

    pub fn new(text: &'a [u8]) -> Words<'a>
        ensures { text_left result ≡ text.now }
    {
        Words { rest: text }
    }
}

impl<'a> Iterator for Words<'a> {
    ghost use Rattle.std.specs.Iterator.{YieldsFirstRef, at_most};
    ghost use Rattle.tables.specs.Splitting.{text_left, words_left};

    type Item = &'a [u8];

    ghost next_gives = { YieldsFirstRef words_left };

    ghost remaining = { λ s. at_most (length (text_left s)) };

    fn next(&mut self) -> Option<&'a [u8]> {
        let (word, rest) = first_word(self.rest)?;
        self.rest = rest;
        Some(word)
    }
}
