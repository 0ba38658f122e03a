// Why a record is not appended.
ghost use Rattle.std.specs.Prelude.{◌≡◌};
ghost use Rattle.logs.specs.Refusals.{append_fault};

use records::Fault;

/// Why a record is not appended to a log.
#[derive(Clone, Copy, PartialEq, Eq, Debug)]
pub enum AppendRefusal {
    /// Every place holds a record.
    Full,
}

/// The refusal as a record.
impl From<AppendRefusal> for Fault {
    ghost from_gives = { λ e f. f ≡ append_fault e };

    fn from(refusal: AppendRefusal) -> Fault {
        let code = match refusal {
            AppendRefusal::Full => 18,
        };
        Fault {
            code,
            ..Fault::default()
        }
    }
}
