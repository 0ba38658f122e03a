// Folding numbers and unfolded readings, from one reading of each channel; bounds play no part.
ghost use Rattle.std.specs.Prelude.{◌≡◌, ◌^◌, ◌<◌, length, pos, ◌+ℤ◌, ◌-ℤ◌, ◌*ℤ◌, neg_ℤ, ◌≤ℤ◌};
ghost use Rattle.std.specs.Int.{int_div_euclid};
ghost use Rattle.settings.specs.Told.{factors_of, unit_of};
ghost use Rattle.unfolding.specs.Folded.{Folded};

use crate::digits::agreeing_units;
use crate::few::Few;
use crate::kept::Folding;
use crate::numbers::floor;
use crate::quotients::quotients;
use settings::Setting;

// How often a channel has folded: the units less its quotient, by its factor.
fn folds_of_channel(units: u64, quotient: i64, factor: u32) -> i64
    requires units_fit { units < 2 ^ 40 }
    requires quotient_low { neg_ℤ (pos (2 ^ 40)) ≤ℤ quotient }
    requires quotient_high { quotient ≤ℤ pos (2 ^ 40) }
    requires factor_positive { 0 < factor }
    ensures { result ≡ int_div_euclid (pos units -ℤ quotient) (pos factor) }
{
    floor(units as i64 - quotient, i64::from(factor))
}

// A reading with its folds put back.
fn unfolded_reading(folds: i64, modulus: u32, reading: u32) -> i64
    requires low { neg_ℤ (pos (2 ^ 60)) ≤ℤ (folds *ℤ pos modulus) }
    requires high { (folds *ℤ pos modulus) ≤ℤ pos (2 ^ 60) }
    ensures { result ≡ folds *ℤ pos modulus +ℤ pos reading }
{
    folds * i64::from(modulus) + i64::from(reading)
}

/// Folds one reading of each channel.
pub(crate) fn fold(setting: &Setting, readings: &[u32]) -> Folding
    requires { length readings.now ≡ length (factors_of setting.now) }
    ensures { Folded (unit_of setting.now) (factors_of setting.now) readings.now result }
{
    let quotients = quotients(setting.unit(), readings);
    let units = agreeing_units(setting, quotients.as_slice());
    let circles = setting.factors().iter().zip(setting.moduli());
    let read = quotients.as_slice().iter().zip(readings);
    let mut folds = Few::new();
    let mut unfolded = Few::new();
    for ((&factor, &modulus), (&quotient, &reading)) in circles.zip(read) {
        let turns = folds_of_channel(units, quotient, factor);
        folds.push(turns);
        unfolded.push(unfolded_reading(turns, modulus, reading));
    }
    Folding {
        quotients,
        folds,
        unfolded,
    }
}
