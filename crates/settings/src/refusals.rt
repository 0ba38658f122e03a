// Why a setting or a remainder is refused.
ghost use Rattle.std.specs.Prelude.{◌≡◌};
ghost use Rattle.settings.specs.Refusals.{remainder_fault, setting_fault};

use records::Fault;

/// Why a unit and factors, or moduli, are no setting: the first check that fails.
#[derive(Clone, Copy, PartialEq, Eq, Debug)]
pub enum SettingRefusal {
    /// Not 1 to 8 factors or moduli.
    Count,
    /// The unit is not 1 to 2^24.
    Unit,
    /// A factor is not 2 to 32,768.
    Factor {
        channel: usize,
    },
    /// A modulus is not 1 to 2^31.
    Modulus {
        channel: usize,
    },
    /// Two factors have a common divisor.
    SharedDivisor {
        first: usize,
        second: usize,
        divisor: u32,
    },
    /// The unit times the factors up to this channel first passes 2^40.
    Range {
        channel: usize,
    },
}

/// The refusal as a record.
impl From<SettingRefusal> for Fault {
    ghost from_gives = { λ e f. f ≡ setting_fault e };

    fn from(refusal: SettingRefusal) -> Fault {
        let (code, channel, first, second) = match refusal {
            SettingRefusal::Count => (1, 0, 0, 0),
            SettingRefusal::Unit => (2, 0, 0, 0),
            SettingRefusal::Factor { channel } => (3, channel, 0, 0),
            SettingRefusal::Modulus { channel } => (4, channel, 0, 0),
            SettingRefusal::SharedDivisor {
                first,
                second,
                divisor,
            } => (5, first, second as u64, u64::from(divisor)),
            SettingRefusal::Range { channel } => (6, channel, 0, 0),
        };
        Fault {
            code,
            channel,
            first,
            second,
            ..Fault::default()
        }
    }
}

/// Why a position has no remainder in a channel.
#[derive(Clone, Copy, PartialEq, Eq, Debug)]
pub enum RemainderRefusal {
    /// The position is not below the range.
    Position,
    /// There is no such channel.
    Channel { channel: usize },
}

/// The refusal as a record.
impl From<RemainderRefusal> for Fault {
    ghost from_gives = { λ e f. f ≡ remainder_fault e };

    fn from(refusal: RemainderRefusal) -> Fault {
        let (code, channel) = match refusal {
            RemainderRefusal::Position => (31, 0),
            RemainderRefusal::Channel { channel } => (23, channel),
        };
        Fault {
            code,
            channel,
            ..Fault::default()
        }
    }
}
