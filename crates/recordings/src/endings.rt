// The last four numbers of a recording, and the parts that they cut its bytes into.
ghost use Rattle.std.specs.Prelude.{◌≡◌, ◌*◌, MatchResult};
ghost use Rattle.recordings.specs.Refusals.{CheckRefused, Counted, IsCut, channel_count_in, place_in, row_count_in};

use crate::numbers::number_at;
use crate::{CheckRefusal, ENDING_BYTES, ENTRY_BYTES, NUMBER_BYTES, Recording};

/// The edition of every recording.
const EDITION: u32 = 1;

/// Bytes of edition 1 and with 1 to 8 channels: where their entries begin,
/// and how many rows and channels there are.
#[derive(Clone, Copy)]
pub(crate) struct Ending<'a> {
    bytes: &'a [u8],
    place: u32,
    rows: u32,
    channels: u32,
    ghost counted: { Counted bytes.now },
    ghost place_is: { place ≡ place_in bytes.now },
    ghost rows_are: { rows ≡ row_count_in bytes.now },
    ghost channels_are: { channels ≡ channel_count_in bytes.now },
}

impl<'a> Ending<'a> {
    /// The ending of these bytes, or the first of three checks that they fail.
    pub(crate) fn read(bytes: &'a [u8]) -> Result<Ending<'a>, CheckRefusal>
        ensures { MatchResult result (λ e. e.bytes.now ≡ bytes.now) (CheckRefused bytes.now) }
    {
        let end = bytes.len();
        if end < ENDING_BYTES {
            return Err(CheckRefusal::TooShort);
        }
        if number_at(bytes, end - NUMBER_BYTES) != EDITION {
            return Err(CheckRefusal::Edition);
        }
        let channels = number_at(bytes, end - 2 * NUMBER_BYTES);
        if !(1..=8).contains(&channels) {
            return Err(CheckRefusal::Channels);
        }
        Ok(Ending {
            bytes,
            place: number_at(bytes, end - ENDING_BYTES),
            rows: number_at(bytes, end - 3 * NUMBER_BYTES),
            channels,
        })
    }

    /// How many bytes the rows take.
    fn rows_length(&self) -> usize
        ensures { result ≡ 4 * (self.now.rows * self.now.channels) }
    {
        NUMBER_BYTES * (self.rows as usize * self.channels as usize)
    }

    /// The parts, where the entries end at the ending and the rows fit before the entries.
    pub(crate) fn cut(&self) -> Result<Recording<'a>, CheckRefusal>
        ensures { MatchResult result (IsCut self.now.bytes.now) (CheckRefused self.now.bytes.now) }
    {
        let place = self.place as usize;
        let end = place + ENTRY_BYTES * self.channels as usize;
        if end + ENDING_BYTES != self.bytes.len() {
            return Err(CheckRefusal::Places);
        }
        let rows_at = place
            .checked_sub(self.rows_length())
            .ok_or(CheckRefusal::Places)?;
        Ok(Recording {
            note: &self.bytes[..rows_at],
            rows: &self.bytes[rows_at..place],
            entries: &self.bytes[place..end],
        })
    }
}
