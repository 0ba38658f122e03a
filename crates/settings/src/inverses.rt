// The inverses that a setting keeps, which factors that share a divisor lack.
ghost use Rattle.std.specs.Prelude.{◌<◌, ◌≢◌, length, suc, IfErr, IfOk, MatchResult};
ghost use Rattle.residues.specs.Divisors.{Greatest};
ghost use Rattle.residues.specs.Products.{PairwiseCoprime};
ghost use Rattle.settings.specs.Refusals.{TellsShared};
ghost use Rattle.settings.specs.Tables.{InversesMade, RowsOfEight};
ghost use Rattle.settings.specs.Told.{Inverse};

use crate::SettingRefusal;
use crate::candidates::Candidate;
use residues::{Shared, euclid};

/// The inverse of the first modulo the second, or what they share.
fn inverse_of(first: u32, second: u32) -> Result<u32, Shared>
    requires { 1 < second }
    ensures { MatchResult result (Inverse first second) (λ s. Greatest first second s.divisor × (s.divisor ≢ 1)) }
{
    match euclid(first, second) {
        Some(shared) if shared.divisor == 1 => Ok(shared.cofactor),
        Some(shared) => Err(shared),
        None => unreachable(),
    }
}

impl Candidate<'_> {
    /// In row k the inverse of each earlier factor modulo factor k, or the first
    /// pair that shares a divisor: pairs go by the first channel, then by the second.
    pub(crate) fn inverses(&self) -> Result<[[u32; 8]; 8], SettingRefusal>
        ensures made { IfOk result (λ table. InversesMade self.now.factors.now table (length self.now.factors.now)) }
        ensures coprime { IfOk result (λ _. PairwiseCoprime self.now.factors.now) }
        ensures shared { IfErr result (TellsShared self.now.factors.now) }
    {
        let mut inverses = [[0; 8]; 8];
        for first in 0..self.factors.len() {
            self.invert(first, &mut inverses)?;
        }
        Ok(inverses)
    }

    /// The inverse of one factor modulo each later factor, put into the later factor's row.
    // By the numbers of the two channels: a refusal tells them, and they are the places in the table.
    fn invert(&self, first: usize, inverses: &mut [[u32; 8]; 8]) -> Result<(), SettingRefusal>
        requires within { first < length self.now.factors.now }
        requires rows { RowsOfEight inverses.old }
        requires made { InversesMade self.now.factors.now inverses.old first }
        ensures rows { RowsOfEight inverses.new }
        ensures told { MatchResult result (λ _. InversesMade self.now.factors.now inverses.new (suc first)) (TellsShared self.now.factors.now) }
    {
        for second in first + 1..self.factors.len() {
            match inverse_of(self.factors[first], self.factors[second]) {
                Ok(inverse) => inverses[second][first] = inverse,
                Err(shared) => return Err(SettingRefusal::SharedDivisor {
                    first,
                    second,
                    divisor: shared.divisor,
                }),
            }
        }
        Ok(())
    }
}
