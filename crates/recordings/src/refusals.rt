// Why bytes are no recording.
ghost use Rattle.std.specs.Prelude.{◌≡◌};
ghost use Rattle.recordings.specs.Refusals.{check_fault};

use records::Fault;

/// Why bytes are no recording: the first check that fails.
#[derive(Clone, Copy, PartialEq, Eq, Debug)]
pub enum CheckRefusal {
    /// Fewer than 16 bytes.
    TooShort,
    /// The edition is not 1.
    Edition,
    /// Not 1 to 8 channels.
    Channels,
    /// The entries do not end where the ending begins, or the rows do not fit before them.
    Places,
    /// An entry is unfit.
    UnfitEntry { channel: usize },
}

/// The refusal as a record.
impl From<CheckRefusal> for Fault {
    ghost from_gives = { λ e f. f ≡ check_fault e };

    fn from(refusal: CheckRefusal) -> Fault {
        let (code, channel) = match refusal {
            CheckRefusal::TooShort => (45, 0),
            CheckRefusal::Edition => (46, 0),
            CheckRefusal::Channels => (47, 0),
            CheckRefusal::Places => (48, 0),
            CheckRefusal::UnfitEntry { channel } => (43, channel),
        };
        Fault {
            code,
            channel,
            ..Fault::default()
        }
    }
}
