// Why a line is not printed.
ghost use Rattle.std.specs.Prelude.{◌≡◌};
ghost use Rattle.lines.specs.Refusals.{fault_line_fault, fix_line_fault};

use records::Fault;

/// Why a fix is not printed: the first check that fails.
#[derive(Clone, Copy, PartialEq, Eq, Debug)]
pub enum FixLineRefusal {
    /// The start or the mean is not below the range, or the count is not 1 to the range.
    Outside,
    /// The buffer is shorter than the line.
    Short,
}

/// The refusal as a record.
impl From<FixLineRefusal> for Fault {
    ghost from_gives = { λ e f. f ≡ fix_line_fault e };

    fn from(refusal: FixLineRefusal) -> Fault {
        let code = match refusal {
            FixLineRefusal::Outside => 53,
            FixLineRefusal::Short => 52,
        };
        Fault {
            code,
            ..Fault::default()
        }
    }
}

/// Why a fault is not printed.
#[derive(Clone, Copy, PartialEq, Eq, Debug)]
pub enum FaultLineRefusal {
    /// The buffer is shorter than the line.
    Short,
}

/// The refusal as a record.
impl From<FaultLineRefusal> for Fault {
    ghost from_gives = { λ e f. f ≡ fault_line_fault e };

    fn from(refusal: FaultLineRefusal) -> Fault {
        let FaultLineRefusal::Short = refusal;
        Fault {
            code: 52,
            ..Fault::default()
        }
    }
}
