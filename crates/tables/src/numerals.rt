// A word read as a number: digits only, below 2^32.
ghost use Rattle.std.specs.Prelude.{◌≡◌, ℕ, ◌^◌, ◌<◌, Ok, decimal};
ghost use Rattle.tables.specs.Numerals.{number_in};

/// Why a word is no number.
#[derive(Clone, Copy, PartialEq, Eq, Debug)]
pub enum NoNumber {
    NotDigits,
    TooLarge,
}

const LIMIT: u64 = 4294967296;

/// The number that a word writes in decimal digits.
pub fn number(word: &[u8]) -> Result<u32, NoNumber>
    ensures value { result ≡ number_in word.now }
    ensures reads_back { (n : ℕ) → n < 2 ^ 32 → word.now ≡ decimal n → result ≡ Ok n }
{
    let mut n: u64 = 0;
    for b in word {
        if !b.is_ascii_digit() {
            return Err(NoNumber::NotDigits);
        }
        n = (n * 10 + u64::from(*b - b'0')).min(LIMIT);
    }
    if word.is_empty() {
        Err(NoNumber::NotDigits)
    } else if n == LIMIT {
        Err(NoNumber::TooLarge)
    } else {
        Ok(n as u32)
    }
}
