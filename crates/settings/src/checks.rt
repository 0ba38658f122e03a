// The checks that look at one number at a time.
ghost use Rattle.std.specs.Prelude.{◌≡◌, length, MatchOption, MatchResult, slice_index};
ghost use Rattle.settings.specs.Refusals.{FailsFirst};
ghost use Rattle.settings.specs.Settings.{Counted, EachFromTo, FromTo};

use crate::SettingRefusal;

/// That there are 1 to 8 of them.
pub(crate) fn check_count(numbers: &[u32]) -> Result<(), SettingRefusal>
    ensures { MatchResult result (λ _. Counted numbers.now) (λ e. (e ≡ SettingRefusal.Count) × (Counted numbers.now → ⊥)) }
{
    if !(1..=8).contains(&numbers.len()) {
        return Err(SettingRefusal::Count);
    }
    Ok(())
}

/// The lowest place at which a number is outside the limits.
pub(crate) fn first_outside(numbers: &[u32], low: u32, high: u32) -> Option<usize>
    ensures { MatchOption result (EachFromTo low high numbers.now) (λ k. FailsFirst (λ i. FromTo low high (slice_index numbers.now i)) (length numbers.now) k) }
{
    numbers
        .iter()
        .position(|number| !(low..=high).contains(number))
}
