// The checks of readings and bounds, in their order.
ghost use Rattle.settings.specs.Settings.{Accepted};
ghost use Rattle.settings.specs.Told.{factors_of, unit_of};
ghost use Rattle.unfolding.specs.Refusals.{Checked};

use crate::UnfoldRefusal;
use settings::Setting;

/// One reading and one bound for each channel, each bound under a quarter of
/// the unit, each reading below its modulus; or the first check that fails.
pub(crate) fn check(
    setting: &Setting,
    readings: &[u32],
    bounds: &[u32],
) -> Result<(), UnfoldRefusal>
    ensures checked { Checked (unit_of setting.now) (factors_of setting.now) readings.now bounds.now result }
    ensures accepted { Accepted (unit_of setting.now) (factors_of setting.now) }
{
    let channels = setting.factors().len();
    if readings.len() != channels {
        return Err(UnfoldRefusal::Readings {
            count: readings.len(),
            channels,
        });
    }
    if bounds.len() != channels {
        return Err(UnfoldRefusal::Bounds {
            count: bounds.len(),
            channels,
        });
    }
    let unit = setting.unit();
    let rows = bounds.iter().zip(readings).zip(setting.moduli());
    for (channel, ((&bound, &reading), &modulus)) in rows.enumerate() {
        let quadruple = 4 * u64::from(bound);
        if quadruple >= u64::from(unit) {
            return Err(UnfoldRefusal::WideBound {
                channel,
                quadruple,
                unit,
            });
        }
        if reading >= modulus {
            return Err(UnfoldRefusal::Wild {
                channel,
                reading,
                modulus,
            });
        }
    }
    Ok(())
}
