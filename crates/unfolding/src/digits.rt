// Mixed radix digits: the one number of units that agrees with every quotient.
ghost use Rattle.std.specs.Prelude.{◌≡◌, ◌+◌, ◌-◌, ◌*◌, ◌%◌, ◌<◌, ◌≤◌, length};
ghost use Rattle.settings.specs.Told.{factors_of};
ghost use Rattle.unfolding.specs.Digits.{Agreeing, Below, peeled};

use crate::few::Few;
use settings::Setting;

// A residue less one digit, divided by that digit's factor, whose inverse it is
// multiplied by; all modulo `factor`.
fn less_digit(left: u32, digit: u32, inverse: u32, factor: u32) -> u32
    requires left_below { left < factor }
    requires inverse_below { inverse < factor }
    requires factor_fits { factor ≤ 32768 }
    ensures below { result < factor }
    ensures is { result ≡ (left + (factor - digit % factor)) % factor * inverse % factor }
{
    (left + (factor - digit % factor)) % factor * inverse % factor
}

// What is left of a residue once each earlier digit is taken away and the rest
// divided by that digit's factor, all modulo `factor`: the next digit.
fn next_digit(residue: u32, factor: u32, inverses: &[u32], digits: &[u32]) -> u32
    requires residue_below { residue < factor }
    requires factor_fits { factor ≤ 32768 }
    requires paired { length digits.now ≡ length inverses.now }
    requires inverses_below { Below factor inverses.now }
    ensures below { result < factor }
    ensures is { result ≡ peeled factor residue inverses.now digits.now }
{
    let mut left = residue;
    for (&digit, &inverse) in digits.iter().zip(inverses) {
        left = less_digit(left, digit, inverse, factor);
    }
    left
}

/// The one number of units, below the product of the factors, that is each
/// channel's quotient modulo its factor; its mixed radix digits are found from
/// the lowest up, each from the earlier ones.
pub(crate) fn agreeing_units(setting: &Setting, quotients: &[i64]) -> u64
    requires { length quotients.now ≡ length (factors_of setting.now) }
    ensures { Agreeing (factors_of setting.now) quotients.now result }
{
    let factors = setting.factors();
    let mut digits = Few::new();
    let mut units = 0;
    let mut weight = 1;
    for (k, (&factor, &quotient)) in factors.iter().zip(quotients).enumerate() {
        let residue = quotient.rem_euclid(i64::from(factor)) as u32;
        let digit = next_digit(residue, factor, setting.inverses(k), digits.as_slice());
        digits.push(digit);
        units += weight * u64::from(digit);
        weight *= u64::from(factor);
    }
    units
}
