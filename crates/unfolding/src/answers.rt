// The public call: readings and bounds unfolded, or the first check that fails.
ghost use Rattle.settings.specs.Told.{factors_of, unit_of};
ghost use Rattle.unfolding.specs.Robust.{RobustRemainders};
ghost use Rattle.unfolding.specs.Returns.{Finds, IsFound};
ghost use Rattle.unfolding.specs.Unfolds.{UnfoldAnswers};

use crate::checks::check;
use crate::ends::Ends;
use crate::folding::fold;
use crate::means::{reduced, rounded};
use crate::{UnfoldRefusal, Unfolding};
use settings::Setting;

/// Unfolds one reading of each channel: folding numbers, unfolded readings, the
/// bracket of positions that every reading allows, and the mean.
pub fn unfold(
    setting: &Setting,
    readings: &[u32],
    bounds: &[u32],
) -> Result<Unfolding, UnfoldRefusal>
    ensures answers { UnfoldAnswers setting.now readings.now bounds.now result }
    ensures robust { RobustRemainders }
    ensures finds { Finds (unit_of setting.now) (factors_of setting.now) readings.now bounds.now result }
    ensures found { IsFound (unit_of setting.now) (factors_of setting.now) readings.now bounds.now result }
{
    check(setting, readings, bounds)?;
    let folding = fold(setting, readings);
    let unfolded = folding.unfolded.as_slice();
    let ends = Ends::of(unfolded, bounds);
    if ends.lo.at > ends.hi.at {
        return Err(UnfoldRefusal::Contradictory {
            low: ends.lo.channel,
            excess: ends.excess(),
            high: ends.hi.channel,
        });
    }
    let range = setting.range();
    let mean = reduced(rounded(unfolded), range);
    Ok(Unfolding {
        folding,
        ends: (ends.lo.at, ends.hi.at),
        start: reduced(ends.lo.at, range),
        count: ends.count(),
        mean,
    })
}
