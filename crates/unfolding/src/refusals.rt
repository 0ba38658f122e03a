// Why readings are not unfolded.
ghost use Rattle.std.specs.Prelude.{◌≡◌};
ghost use Rattle.unfolding.specs.Refusals.{unfold_fault};

use records::Fault;

/// Why readings and bounds are not unfolded: the first check that fails.
#[derive(Clone, Copy, PartialEq, Eq, Debug)]
pub enum UnfoldRefusal {
    /// Not one reading for each channel.
    Readings {
        count: usize,
        channels: usize,
    },
    /// Not one bound for each channel.
    Bounds {
        count: usize,
        channels: usize,
    },
    /// Four times the bound is not below the unit.
    WideBound {
        channel: usize,
        quadruple: u64,
        unit: u32,
    },
    /// The reading is not below the modulus.
    Wild {
        channel: usize,
        reading: u32,
        modulus: u32,
    },
    /// The greatest lower end, `low`'s, exceeds the least upper end, `high`'s.
    Contradictory {
        low: usize,
        excess: u64,
        high: usize,
    },
}

/// The refusal as a record.
impl From<UnfoldRefusal> for Fault {
    ghost from_gives = { λ e f. f ≡ unfold_fault e };

    fn from(refusal: UnfoldRefusal) -> Fault {
        let (code, channel, first, second) = match refusal {
            UnfoldRefusal::Readings { count, channels } => (13, 0, count as u64, channels as u64),
            UnfoldRefusal::Bounds { count, channels } => (13, 0, count as u64, channels as u64),
            UnfoldRefusal::WideBound {
                channel,
                quadruple,
                unit,
            } => (15, channel, quadruple, u64::from(unit)),
            UnfoldRefusal::Wild {
                channel,
                reading,
                modulus,
            } => (25, channel, u64::from(reading), u64::from(modulus)),
            UnfoldRefusal::Contradictory { low, excess, high } => (16, low, excess, high as u64),
        };
        Fault {
            code,
            channel,
            first,
            second,
            ..Fault::default()
        }
    }
}
