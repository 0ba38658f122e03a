// Why a recording is not written.
ghost use Rattle.std.specs.Prelude.{◌≡◌};
ghost use Rattle.encoding.specs.Refusals.{write_fault};

use records::Fault;

/// Why a note, rows and entries are not written: the first check that fails.
#[derive(Clone, Copy, PartialEq, Eq, Debug)]
pub enum WriteRefusal {
    /// Not 1 to 8 entries.
    Channels,
    /// The count of row numbers is not a multiple of the count of entries.
    Rows,
    /// An entry is unfit.
    UnfitEntry { channel: usize },
    /// More bytes than the buffer has, or than 2^31.
    Room,
}

/// The refusal as a record.
impl From<WriteRefusal> for Fault {
    ghost from_gives = { λ e f. f ≡ write_fault e };

    fn from(refusal: WriteRefusal) -> Fault {
        let (code, channel) = match refusal {
            WriteRefusal::Channels => (47, 0),
            WriteRefusal::Rows => (42, 0),
            WriteRefusal::UnfitEntry { channel } => (43, channel),
            WriteRefusal::Room => (44, 0),
        };
        Fault {
            code,
            channel,
            ..Fault::default()
        }
    }
}
