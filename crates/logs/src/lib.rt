// Logs: records in places that the caller lends, and their middle.
#![tactic(auto)]

mod logs;
mod middles;
mod ordering;
mod refusals;
mod sinks;
mod slots;

pub use logs::Log;
pub use ordering::ByMean;
pub use refusals::AppendRefusal;
pub use sinks::Sink;
pub use slots::Slot;

#[cfg(test)]
mod tests {
    use super::*;
    use records::{Fault, Fix, InTurn, OwnOrder, middle};
    use std::test::Fail;

    fn fix(start: u64, count: u64, mean: u64) -> Fix {
        Fix { start, count, mean }
    }

    fn dark(channel: usize) -> Fault {
        Fault {
            code: 24,
            channel,
            depth: 0,
            first: 0,
            second: 0,
        }
    }

    #[test]
    fn equal_means_go_by_count(rt: HostRuntime) -> Result<(), Fail> {
        let mut places = [fix(0, 0, 0); 4];
        let mut log = Log::new(&mut places);
        assert!(rt; log.middle_fix().is_none());
        log.append(fix(437, 2, 437))?;
        log.append(fix(435, 4, 436))?;
        log.append(fix(437, 1, 437))?;
        let middle = log.middle_fix().ok_or("no middle")?;
        assert_eq!(rt; *middle, fix(437, 1, 437));
        Ok(())
    }

    #[test]
    fn a_full_log_keeps_its_faults(rt: HostRuntime) -> Result<(), Fail> {
        let mut places = [dark(0); 2];
        let mut log = Log::new(&mut places);
        log.append(dark(1))?;
        log.append(dark(2))?;
        assert_eq!(rt; log.append(dark(3)), Err(AppendRefusal::Full));
        assert_eq!(rt; log.record(1).ok_or("no record")?.channel, 2);
        log.empty();
        assert!(rt; log.record(0).is_none());
        log.append(dark(4))?;
        assert_eq!(rt; log.count(), 1);
        Ok(())
    }

    #[test]
    fn pairs_go_by_their_parts_in_turn(rt: HostRuntime) -> Result<(), Fail> {
        let by_both = InTurn {
            first: OwnOrder,
            second: OwnOrder,
        };
        let pairs = [(437u64, 2u8), (436, 4), (437, 1)];
        assert_eq!(rt; middle(&by_both, &pairs), Some(2));
        Ok(())
    }
}
