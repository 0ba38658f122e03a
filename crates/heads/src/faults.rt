// Why a head answers no reading.
ghost use Rattle.std.specs.Prelude.{◌≡◌};
ghost use Rattle.heads.specs.Answers.{head_fault};

use records::Fault;

/// Why a read gave no reading. A fault that waited tells the depth where it
/// arose and its two figures.
#[derive(Clone, Copy, PartialEq, Eq, Debug)]
pub enum HeadFault {
    /// The head is unfit; the depth is that of its lowest unfit part.
    Unfit { depth: u16 },
    /// Nothing waits any more.
    End,
    /// No signal.
    Dark { depth: u16, first: u64, second: u64 },
    /// A number that is no reading.
    Wild { depth: u16, first: u64, second: u64 },
    /// Readings that lie too far apart to be one.
    Spread { depth: u16, first: u64, second: u64 },
}

impl HeadFault {
    /// The fault as a record, of the channel given.
    // A method and no `From`: a head knows no channel, so the caller tells it.
    pub fn fault(self, channel: usize) -> Fault
        ensures { result ≡ head_fault channel self }
    {
        let (code, depth, first, second) = match self {
            HeadFault::Unfit { depth } => (21, depth, 0, 0),
            HeadFault::End => (22, 0, 0, 0),
            HeadFault::Dark {
                depth,
                first,
                second,
            } => (24, depth, first, second),
            HeadFault::Wild {
                depth,
                first,
                second,
            } => (25, depth, first, second),
            HeadFault::Spread {
                depth,
                first,
                second,
            } => (26, depth, first, second),
        };
        Fault {
            code,
            channel,
            depth,
            first,
            second,
        }
    }
}
