// How a joined bank is made.
ghost use Rattle.std.specs.Prelude.{◌≡◌};
ghost use Rattle.banks.specs.JoinedBanks.{Joins};

use super::Joined;
use crate::Bank;

impl<A: Bank, B: Bank> Joined<A, B> {
    /// The second's channels come after the first's.
    pub fn new(first: A, second: B) -> Joined<A, B>
        ensures first { result.first ≡ first }
        ensures second { result.second ≡ second }
        ensures channels { Joins (A.Bank.channels first) (B.Bank.channels second) (⟦<Joined<A, B> as Bank>⟧.channels result) }
    {
        Joined { first, second }
    }
}
