// Making a setting: the checks in their order.
ghost use Rattle.std.specs.Prelude.{[], ◌∷◌};
ghost use Rattle.settings.specs.SettingLaws.{ModuliRefusedNotAccepted, OneModuliRefusal, OneRefusal, RefusedNotAccepted};
ghost use Rattle.settings.specs.Told.{Has, Makes, MakesFromModuli};

use crate::candidates::Candidate;
use crate::checks::{check_count, first_outside};
use crate::places::in_places;
use crate::splitting::{common_divisor, quotients};
use crate::{Setting, SettingRefusal};

impl Candidate<'_> {
    /// The setting, or the first of the other checks that fails.
    fn setting(&self) -> Result<Setting, SettingRefusal>
        ensures { Makes self.now.unit self.now.factors.now result }
    {
        let moduli = self.moduli()?;
        let inverses = self.inverses()?;
        let range = self.range()?;
        Ok(Setting {
            unit: self.unit,
            count: self.factors.len(),
            factors: in_places(self.factors),
            moduli,
            inverses,
            range,
        })
    }
}

impl Setting {
    /// A setting with this unit and these factors, or the first check that they fail.
    #[tactic(auto, using(crate::proofs::Laws::refused_not_accepted, crate::proofs::Laws::one_refusal))]
    pub fn new(unit: u32, factors: &[u32]) -> Result<Setting, SettingRefusal>
        ensures made { Makes unit factors.now result }
        ensures never_both { RefusedNotAccepted }
        ensures one_refusal { OneRefusal }
    {
        Candidate::new(unit, factors)?.setting()
    }

    /// A setting whose channels have these moduli, or the first check that they
    /// fail: its unit is their greatest common divisor.
    #[tactic(auto, using(crate::proofs::ModuliLaws::moduli_refused_not_accepted, crate::proofs::ModuliLaws::one_moduli_refusal))]
    pub fn from_moduli(moduli: &[u32]) -> Result<Setting, SettingRefusal>
        ensures made { MakesFromModuli moduli.now result }
        ensures never_both { ModuliRefusedNotAccepted }
        ensures one_refusal { OneModuliRefusal }
    {
        check_count(moduli)?;
        if let Some(channel) = first_outside(moduli, 1, 1 << 31) {
            return Err(SettingRefusal::Modulus { channel });
        }
        let unit = common_divisor(moduli);
        let factors = quotients(moduli, unit);
        Setting::new(unit, &factors[..moduli.len()])
    }

    /// The setting that comes before any other: unit 1 with the one factor 2.
    pub fn first() -> Setting
        ensures { Has result 1 (2 ∷ []) }
    {
        Setting {
            unit: 1,
            count: 1,
            factors: [2, 0, 0, 0, 0, 0, 0, 0],
            moduli: [2, 0, 0, 0, 0, 0, 0, 0],
            inverses: [[0; 8]; 8],
            range: 2,
        }
    }
}
