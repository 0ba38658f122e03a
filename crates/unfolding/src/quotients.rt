// Quotients: the units from channel 0's reading to each other one, rounded.
ghost use Rattle.std.specs.Prelude.{◌≡◌, ◌*◌, ◌<◌, ◌≤◌, length, pos, ◌+ℤ◌, ◌-ℤ◌, ◌*ℤ◌};
ghost use Rattle.std.specs.Int.{int_div_euclid};
ghost use Rattle.unfolding.specs.Channels.{by_channel};
ghost use Rattle.unfolding.specs.Few.{items};
ghost use Rattle.unfolding.specs.Folds.{quotient_at};

use crate::few::Few;
use crate::numbers::floor;

// The units from one reading to another, rounded.
fn quotient(reading: u32, first: u32, unit: u32) -> i64
    requires { 0 < unit }
    ensures { result ≡ int_div_euclid (pos 2 *ℤ (pos reading -ℤ pos first) +ℤ pos unit) (pos (2 * unit)) }
{
    let twice = 2 * (i64::from(reading) - i64::from(first));
    let unit = i64::from(unit);
    floor(twice + unit, 2 * unit)
}

/// The quotient of each channel; channel 0's is 0.
pub(crate) fn quotients(unit: u32, readings: &[u32]) -> Few<i64>
    requires unit_positive { 0 < unit }
    requires some { 1 ≤ length readings.now }
    requires few { length readings.now ≤ 8 }
    ensures { items result ≡ by_channel (length readings.now) (quotient_at unit readings.now) }
{
    let first = readings[0];
    let mut rounded = Few::new();
    for &reading in readings {
        rounded.push(quotient(reading, first, unit));
    }
    rounded
}
