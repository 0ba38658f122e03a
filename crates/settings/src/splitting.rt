// The unit and the factors that moduli have.
ghost use Rattle.std.specs.Prelude.{◌≡◌, ℕ, ◌/◌, ◌<◌, ◌≤◌, length, slice_index};
ghost use Rattle.settings.specs.Settings.{GreatestOf};

use crate::places::in_places;
use residues::gcd;

/// The greatest number that divides them all.
pub(crate) fn common_divisor(numbers: &[u32]) -> u32
    ensures { GreatestOf numbers.now result }
{
    numbers
        .iter()
        .fold(0, |common, &number| gcd(common, number))
}

/// Each number divided by the divisor.
pub(crate) fn quotients(numbers: &[u32], divisor: u32) -> [u32; 8]
    requires few { length numbers.now ≤ 8 }
    requires divides { 0 < divisor }
    ensures { (k : ℕ) → k < length numbers.now → slice_index result k ≡ slice_index numbers.now k / divisor }
{
    in_places(numbers).map(|number| number / divisor)
}
