// A unit and factors that passed the first three checks, and what is asked of them next.
ghost use Rattle.std.specs.Prelude.{◌≡◌, ℕ, ◌<◌, length, IfErr, IfOk, MatchOption};
ghost use Rattle.settings.specs.Refusals.{FailsFirst, Refuses, TellsPassing};
ghost use Rattle.settings.specs.Settings.{Counted, FactorFits, ModulusFits, RangeFits, UnitFits, range_of};
ghost use Rattle.settings.specs.Tables.{ModuliMade};

use crate::SettingRefusal;
use crate::checks::{check_count, first_outside};
use crate::places::in_places;

/// A unit with factors of which the count, the unit and each factor are within
/// their limits.
#[derive(Clone, Copy)]
pub(crate) struct Candidate<'a> {
    pub(crate) unit: u32,
    pub(crate) factors: &'a [u32],
    ghost counted: { Counted factors.now },
    ghost unit_fits: { UnitFits unit },
    ghost factors_fit: { (k : ℕ) → k < length factors.now → FactorFits factors.now k },
}

impl<'a> Candidate<'a> {
    /// The unit and the factors, or the first of those three checks that they fail.
    pub(crate) fn new(unit: u32, factors: &'a [u32]) -> Result<Candidate<'a>, SettingRefusal>
        ensures unit { IfOk result (λ c. c.unit ≡ unit) }
        ensures factors { IfOk result (λ c. c.factors.now ≡ factors.now) }
        ensures refused { IfErr result (Refuses unit factors.now) }
    {
        check_count(factors)?;
        if !(1..=1 << 24).contains(&unit) {
            return Err(SettingRefusal::Unit);
        }
        if let Some(channel) = first_outside(factors, 2, 32768) {
            return Err(SettingRefusal::Factor { channel });
        }
        Ok(Candidate { unit, factors })
    }

    /// The unit times each factor, at most 2^31.
    pub(crate) fn moduli(&self) -> Result<[u32; 8], SettingRefusal>
        ensures made { IfOk result (ModuliMade self.now.unit self.now.factors.now) }
        ensures refused { IfErr result (Refuses self.now.unit self.now.factors.now) }
    {
        if let Some(channel) = self.first_misfit() {
            return Err(SettingRefusal::Modulus { channel });
        }
        let unit = self.unit;
        Ok(in_places(self.factors).map(|factor| unit * factor))
    }

    /// The lowest channel whose modulus is not 1 to 2^31.
    fn first_misfit(&self) -> Option<usize>
        ensures { MatchOption result
            ((k : ℕ) → k < length self.now.factors.now → ModulusFits self.now.unit self.now.factors.now k)
            (FailsFirst (ModulusFits self.now.unit self.now.factors.now) (length self.now.factors.now)) }
    {
        let unit = self.unit as u64;
        self.factors
            .iter()
            .position(|&factor| !(1..=1 << 31).contains(&(unit * factor as u64)))
    }

    /// The unit times all factors, at most 2^40.
    #[tactic(auto, using(crate::proofs::Ranges::range_more))]
    pub(crate) fn range(&self) -> Result<u64, SettingRefusal>
        ensures range { IfOk result (λ range. range ≡ range_of self.now.unit self.now.factors.now) }
        ensures fits { IfOk result (λ _. RangeFits self.now.unit self.now.factors.now) }
        ensures passes { IfErr result (TellsPassing self.now.unit self.now.factors.now) }
    {
        // A `for` and no `try_fold`: a product has room for the next factor only where it passed this test.
        let mut range = u64::from(self.unit);
        for (channel, &factor) in self.factors.iter().enumerate() {
            range *= u64::from(factor);
            if range > 1 << 40 {
                return Err(SettingRefusal::Range { channel });
            }
        }
        Ok(range)
    }
}
