// What a plate tells, and what a head is.
ghost use Rattle.std.specs.Prelude.{◌≡◌, List};
ghost use Rattle.heads.specs.Answers.{Reads, checked};
ghost use Rattle.heads.specs.Entries.{Entry};
ghost use Rattle.heads.specs.Figures.{figures_of, fits, unfit};
ghost use Rattle.heads.specs.Laws.{HeadLaws};
ghost use Rattle.heads.specs.PhaseTables.{table_told};
ghost use Rattle.heads.specs.declared.plates.Figures.{Figures};

use crate::HeadFault;

/// What a plate tells: whether it is fit, its modulus, its bound and its depth. All four are told of
/// an unfit plate too, by the rule of plates, so the flag is a figure beside others and no Option.
#[derive(Clone, Copy, PartialEq, Eq, Debug)]
pub struct Figures {
    pub fit: bool,
    pub modulus: u32,
    pub bound: u32,
    pub depth: u16,
}

/// Whether a modulus and a bound are within a plate's limits.
pub fn fitness(modulus: u32, bound: u32) -> bool
    ensures { result ≡ fits modulus bound }
{
    (1..=1 << 31).contains(&modulus) && 4 * u64::from(bound) < u64::from(modulus)
}

impl Figures {
    /// The figures of a plate with these numbers: an unfit one tells modulus 1 and bound 0.
    // The flag is the first of the four figures; an Option of the other numbers would be made of it by each caller.
    pub fn told(fit: bool, modulus: u32, bound: u32, depth: u16) -> Figures
        ensures { result ≡ figures_of fit modulus bound depth }
    {
        if fit {
            Figures {
                fit,
                modulus,
                bound,
                depth,
            }
        } else {
            Figures::unfit(depth)
        }
    }

    /// The figures of a plate that stands on nothing, of depth 0.
    pub fn foot(modulus: u32, bound: u32) -> Figures
        ensures { result ≡ table_told modulus bound }
    {
        Figures::told(fitness(modulus, bound), modulus, bound, 0)
    }

    /// What an unfit plate tells whose lowest unfit part has this depth.
    pub fn unfit(depth: u16) -> Figures
        ensures { result ≡ unfit depth }
    {
        Figures {
            fit: false,
            modulus: 1,
            bound: 0,
            depth,
        }
    }
}

/// What can be told of a channel without reading it.
pub trait Plate {
    ghost told: { Self → Figures };

    fn figures(&self) -> Figures
        ensures { result ≡ told self.now };
}

/// The figures of a plate that is fit; of an unfit one the refusal, with the depth that it tells.
pub fn fit_figures<P: Plate>(plate: &P) -> Result<Figures, HeadFault>
    ensures { result ≡ checked (P.Plate.told plate.now).fit (P.Plate.told plate.now) }
{
    let told = plate.figures();
    if told.fit {
        Ok(told)
    } else {
        Err(HeadFault::Unfit { depth: told.depth })
    }
}

/// A plate that can be read: its meaning is its figures and the entries that wait.
pub trait Head: Plate {
    ghost shape: { Self → Figures };

    ghost waiting: { Self → List Entry };

    ghost laws: { HeadLaws shape waiting };

    // Each head answers its plate's figures: no body for all, which would want a law that spans the two traits.
    fn head_figures(&self) -> Figures
        ensures shape { result ≡ shape self.now }
        ensures told { result ≡ Self.Plate.told self.now };

    fn read(&mut self) -> Result<u32, HeadFault>
        ensures { Reads (shape self.old) (waiting self.old) result (shape self.new) (waiting self.new) };
}
