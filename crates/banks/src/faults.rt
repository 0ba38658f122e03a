// Why a bank tells no figures or answers no reading.
ghost use Rattle.std.specs.Prelude.{◌≡◌};
ghost use Rattle.banks.specs.Faults.{at_channel, bank_fault};
ghost use Rattle.banks.specs.declared.faults.BankFault.TheVariants.{Refused};

use heads::HeadFault;
use records::Fault;

/// Why a bank refused. A refused read keeps all that the head told.
#[derive(Clone, Copy, PartialEq, Eq, Debug)]
pub enum BankFault {
    /// The bank has no such channel.
    NoSuchChannel { channel: usize },
    /// The channel was read and gave no reading.
    Refused { channel: usize, fault: HeadFault },
}

/// A head by itself is channel 0, and `at` carries its fault to another.
impl From<HeadFault> for BankFault {
    ghost from_gives = { λ f r. r ≡ Refused 0 f };

    fn from(fault: HeadFault) -> BankFault {
        BankFault::Refused { channel: 0, fault }
    }
}

impl BankFault {
    /// The same refusal, of the channel given.
    pub fn at(self, channel: usize) -> BankFault
        ensures { result ≡ at_channel channel self }
    {
        match self {
            BankFault::NoSuchChannel { .. } => BankFault::NoSuchChannel { channel },
            BankFault::Refused { fault, .. } => BankFault::Refused { channel, fault },
        }
    }
}

/// The refusal as a record.
impl From<BankFault> for Fault {
    ghost from_gives = { λ e f. f ≡ bank_fault e };

    fn from(refusal: BankFault) -> Fault {
        match refusal {
            BankFault::NoSuchChannel { channel } => Fault {
                code: 23,
                channel,
                ..Fault::default()
            },
            BankFault::Refused { channel, fault } => fault.fault(channel),
        }
    }
}
