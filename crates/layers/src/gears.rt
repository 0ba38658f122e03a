// Gears: a layer that makes each reading larger by a whole factor.
ghost use Rattle.std.specs.Prelude.{◌≡◌, ◌*◌, ◌≤◌, cond};
ghost use Rattle.heads.specs.Answers.{Reads, rest};
ghost use Rattle.layers.specs.Layering.{Geared, gear_proper, gear_told, gear_waits, layer_fits};
ghost use Rattle.layers.specs.LayeringLaws.{gear_laws};

mod making;

use crate::layering::layered;
use heads::{Figures, Head, HeadFault, Plate, fit_figures, fitness};

/// A gear over any head: its readings are `scale` times as large, its bound `slack` wider.
#[derive(Drop)]
pub struct Gear<H> {
    below: H,
    scale: u32,
    slack: u32,
}

// The modulus and the bound behind a gear, where a plate may have them.
fn geared(below: Figures, scale: u32, slack: u32) -> Option<(u32, u32)>
    ensures { Geared scale slack below result }
{
    let modulus = below.modulus.checked_mul(scale)?;
    let bound = below.bound.checked_mul(scale)?.checked_add(slack)?;
    (scale >= 1 && fitness(modulus, bound)).then_some((modulus, bound))
}

// A reading behind the gear.
fn scaled(reading: u32, scale: u32) -> u32
    requires { reading * scale ≤ 2147483648 }
    ensures { result ≡ reading * scale }
{
    reading * scale
}

impl<H: Head> Plate for Gear<H> {
    ghost told = { λ s. gear_told s.scale s.slack (H.Head.shape s.below) };

    fn figures(&self) -> Figures {
        let below = self.below.head_figures();
        layered(below, geared(below, self.scale, self.slack))
    }
}

impl<H: Head> Head for Gear<H> {
    ghost shape = { λ s. gear_told s.scale s.slack (H.Head.shape s.below) };

    ghost waiting = { λ s. gear_waits s.scale s.slack (H.Head.shape s.below) (H.Head.waiting s.below) };

    ghost laws = { gear_laws (λ s. H.Head.shape s.below) (λ s. H.Head.waiting s.below) (λ s. H.Head.laws.plate s.below) (λ s. H.Head.laws.below s.below) (λ s. s.scale) (λ s. s.slack) };

    fn head_figures(&self) -> Figures {
        self.figures()
    }

    // A layer that is not fit leaves what waits below.
    // A zero's read differs in its rule alone: a helper that took the rule as a closure would be no shorter.
    fn read(&mut self) -> Result<u32, HeadFault>
        ensures reads { Reads (gear_told self.old.scale self.old.slack (H.Head.shape self.old.below)) (gear_waits self.old.scale self.old.slack (H.Head.shape self.old.below) (H.Head.waiting self.old.below)) result (gear_told self.new.scale self.new.slack (H.Head.shape self.new.below)) (gear_waits self.new.scale self.new.slack (H.Head.shape self.new.below) (H.Head.waiting self.new.below)) }
        ensures below_figures { H.Head.shape self.new.below ≡ H.Head.shape self.old.below }
        ensures below { H.Head.waiting self.new.below ≡ cond (layer_fits (gear_proper self.old.scale self.old.slack (H.Head.shape self.old.below)) (H.Head.shape self.old.below)) (rest (H.Head.waiting self.old.below)) (H.Head.waiting self.old.below) }
    {
        fit_figures(self)?;
        let reading = self.below.read()?;
        Ok(scaled(reading, self.scale))
    }
}
