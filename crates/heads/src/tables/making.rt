// How a phase table is made.
ghost use Rattle.std.specs.Prelude.{◌≡◌};
ghost use Rattle.heads.specs.Channels.{channel_of};
ghost use Rattle.heads.specs.PhaseTables.{table_channel};

use super::PhaseTable;
use crate::Head;

impl<'a> PhaseTable<'a> {
    /// All of the numbers wait.
    pub fn new(numbers: &'a [u32], modulus: u32, bound: u32) -> PhaseTable<'a>
        ensures means { channel_of (⟦<PhaseTable<'a> as Head>⟧.shape result) (⟦<PhaseTable<'a> as Head>⟧.waiting result) ≡ table_channel modulus bound numbers.now }
        ensures numbers { result.numbers.now ≡ numbers.now }
        ensures modulus { result.modulus ≡ modulus }
        ensures bound { result.bound ≡ bound }
    {
        PhaseTable {
            numbers,
            modulus,
            bound,
        }
    }
}
