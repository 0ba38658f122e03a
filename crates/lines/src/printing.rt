// A fix or a fault as a line at the front of the caller's buffer.
ghost use Rattle.std.specs.Prelude.{◌↔◌, IsTrue, MatchOption};
ghost use Rattle.settings.specs.Settings.{range_of};
ghost use Rattle.settings.specs.Told.{factors_of, unit_of};
ghost use Rattle.lines.specs.LineLaws.{TellsFault, TellsFix};
ghost use Rattle.lines.specs.Printing.{FaultPrinted, FixPrinted, FixWithin, InFront, IsTooShort};

use crate::building::{line_of_fault, line_of_fix};
use crate::{FaultLineRefusal, FixLineRefusal};
use records::{Fault, Fix};
use settings::Setting;

/// Whether a fix can be one of a setting with this range.
fn is_within(range: u64, fix: &Fix) -> bool
    ensures { IsTrue result ↔ FixWithin range fix.now }
{
    fix.start < range && (1..=range).contains(&fix.count) && fix.mean < range
}

/// Copies a line to the front of `out` and answers its length, or writes nothing where it does not fit.
fn copied(line: &[u8], out: &mut [u8]) -> Option<usize>
    ensures { MatchOption result (IsTooShort line.now out.old out.new) (λ n. InFront line.now out.old out.new n) }
{
    let length = line.len();
    if out.len() < length {
        return None;
    }
    out[..length].copy_from_slice(line);
    Some(length)
}

/// Prints a fix of a setting with this range.
fn print_within(range: u64, fix: &Fix, out: &mut [u8]) -> Result<usize, FixLineRefusal>
    ensures { FixPrinted range fix.now out.old result out.new }
{
    if !is_within(range, fix) {
        return Err(FixLineRefusal::Outside);
    }
    copied(line_of_fix(fix).as_str().as_bytes(), out).ok_or(FixLineRefusal::Short)
}

/// Prints start, count and mean of a fix of this setting, one space between and
/// a line feed behind, and answers how many bytes that took. Refused, it writes nothing.
#[tactic(auto, using(crate::proofs::Telling::tells_fix))]
pub fn print_fix(setting: &Setting, fix: &Fix, out: &mut [u8]) -> Result<usize, FixLineRefusal>
    ensures printed { FixPrinted (range_of (unit_of setting.now) (factors_of setting.now)) fix.now out.old result out.new }
    ensures tells { TellsFix }
{
    print_within(setting.range(), fix, out)
}

/// Prints number, channel and depth of a fault as in `refused 24 channel 1 depth 0`,
/// a line feed behind, and answers how many bytes that took. Refused, it writes nothing.
#[tactic(auto, using(crate::proofs::Telling::tells_fault))]
pub fn print_fault(fault: &Fault, out: &mut [u8]) -> Result<usize, FaultLineRefusal>
    ensures printed { FaultPrinted fault.now out.old result out.new }
    ensures tells { TellsFault }
{
    copied(line_of_fault(fault).as_str().as_bytes(), out).ok_or(FaultLineRefusal::Short)
}
