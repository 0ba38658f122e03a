// The mean of unfolded readings, and positions brought back into the range.
ghost use Rattle.std.specs.Prelude.{◌≡◌, ◌*◌, ◌^◌, ◌<◌, ◌≤◌, length, pos, ◌+ℤ◌, ◌*ℤ◌, slice_index_or};
ghost use Rattle.std.specs.Int.{int_div_euclid};
ghost use Rattle.unfolding.specs.Channels.{Moderate, position_of, total};

use crate::numbers::floor;

/// The mean, halves going up.
pub(crate) fn rounded(unfolded: &[i64]) -> i64
    requires some { 1 ≤ length unfolded.now }
    requires few { length unfolded.now ≤ 8 }
    requires moderate { Moderate unfolded.now }
    ensures { result ≡ int_div_euclid (pos 2 *ℤ total (length unfolded.now) (λ k. slice_index_or unfolded.now k (pos 0)) +ℤ pos (length unfolded.now)) (pos (2 * length unfolded.now)) }
{
    // A loop and no `sum`: of signed numbers the library proves no bound of it.
    let mut sum = 0;
    for &reading in unfolded {
        sum += reading;
    }
    let count = unfolded.len() as i64;
    floor(2 * sum + count, 2 * count)
}

/// A whole number as a position of the range.
pub(crate) fn reduced(number: i64, range: u64) -> u64
    requires some { 0 < range }
    requires fits { range ≤ 2 ^ 40 }
    ensures { result ≡ position_of range number }
{
    number.rem_euclid(range as i64) as u64
}
