// Phase tables: a head over the caller's list of numbers.
ghost use Rattle.std.specs.Prelude.{◌≡◌};
ghost use Rattle.heads.specs.Answers.{answered};
ghost use Rattle.heads.specs.PhaseTableLaws.{table_laws};
ghost use Rattle.heads.specs.PhaseTables.{entry_of, table_told, table_waits};

mod making;

use crate::{Figures, Head, HeadFault, Plate, fit_figures};

/// A table of phase readings, one after another; the numbers that wait are lent.
#[derive(Drop)]
pub struct PhaseTable<'a> {
    numbers: &'a [u32],
    modulus: u32,
    bound: u32,
}

/// What a number of a phase table answers when it is read: itself where it is a
/// reading of this modulus, or that it is dark or wild.
pub fn phase_reading(modulus: u32, number: u32) -> Result<u32, HeadFault>
    ensures { result ≡ answered (entry_of modulus number) }
{
    // The number that tables and recordings have for a channel without a signal, by their format.
    if number == 4294967295 {
        Err(HeadFault::Dark {
            depth: 0,
            first: 0,
            second: 0,
        })
    } else if number < modulus {
        Ok(number)
    } else {
        Err(HeadFault::Wild {
            depth: 0,
            first: u64::from(number),
            second: u64::from(modulus),
        })
    }
}

impl<'a> Plate for PhaseTable<'a> {
    ghost told = { λ s. table_told s.modulus s.bound };

    fn figures(&self) -> Figures {
        Figures::foot(self.modulus, self.bound)
    }
}

impl<'a> Head for PhaseTable<'a> {
    ghost shape = { λ s. table_told s.modulus s.bound };

    ghost waiting = { λ s. table_waits s.modulus s.bound s.numbers.now };

    ghost laws = { table_laws (λ s. s.modulus) (λ s. s.bound) (λ s. s.numbers.now) };

    fn head_figures(&self) -> Figures {
        self.figures()
    }

    fn read(&mut self) -> Result<u32, HeadFault> {
        fit_figures(self)?;
        let (&number, rest) = self.numbers.split_first().ok_or(HeadFault::End)?;
        self.numbers = rest;
        phase_reading(self.modulus, number)
    }
}
