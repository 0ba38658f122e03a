// Zero offsets: a layer that adds a number to each reading, round the modulus.
ghost use Rattle.std.specs.Prelude.{◌≡◌, ◌<◌, cond};
ghost use Rattle.heads.specs.Answers.{Reads, rest};
ghost use Rattle.layers.specs.Layering.{layer_fits, zero_proper, zero_told, zero_turns, zero_waits};
ghost use Rattle.layers.specs.LayeringLaws.{zero_laws};

mod making;

use crate::layering::layered;
use heads::{Figures, Head, HeadFault, Plate, fit_figures};

/// A zero offset over any head.
#[derive(Drop)]
pub struct Zero<H> {
    below: H,
    zero: u32,
}

// A reading with the offset added.
fn offset(reading: u32, zero: u32, modulus: u32) -> u32
    requires { zero < modulus }
    ensures { result ≡ zero_turns zero modulus reading }
{
    ((u64::from(reading) + u64::from(zero)) % u64::from(modulus)) as u32
}

impl<H: Head> Plate for Zero<H> {
    ghost told = { λ s. zero_told s.zero (H.Head.shape s.below) };

    fn figures(&self) -> Figures {
        let below = self.below.head_figures();
        let proper = self.zero < below.modulus;
        layered(below, proper.then_some((below.modulus, below.bound)))
    }
}

impl<H: Head> Head for Zero<H> {
    ghost shape = { λ s. zero_told s.zero (H.Head.shape s.below) };

    ghost waiting = { λ s. zero_waits s.zero (H.Head.shape s.below) (H.Head.waiting s.below) };

    ghost laws = { zero_laws (λ s. H.Head.shape s.below) (λ s. H.Head.waiting s.below) (λ s. H.Head.laws.plate s.below) (λ s. H.Head.laws.below s.below) (λ s. s.zero) };

    fn head_figures(&self) -> Figures {
        self.figures()
    }

    // A layer that is not fit leaves what waits below.
    // A gear's read differs in its rule alone: a helper that took the rule as a closure would be no shorter.
    fn read(&mut self) -> Result<u32, HeadFault>
        ensures reads { Reads (zero_told self.old.zero (H.Head.shape self.old.below)) (zero_waits self.old.zero (H.Head.shape self.old.below) (H.Head.waiting self.old.below)) result (zero_told self.new.zero (H.Head.shape self.new.below)) (zero_waits self.new.zero (H.Head.shape self.new.below) (H.Head.waiting self.new.below)) }
        ensures below_figures { H.Head.shape self.new.below ≡ H.Head.shape self.old.below }
        ensures below { H.Head.waiting self.new.below ≡ cond (layer_fits (zero_proper self.old.zero (H.Head.shape self.old.below)) (H.Head.shape self.old.below)) (rest (H.Head.waiting self.old.below)) (H.Head.waiting self.old.below) }
    {
        let told = fit_figures(self)?;
        let reading = self.below.read()?;
        Ok(offset(reading, self.zero, told.modulus))
    }
}
