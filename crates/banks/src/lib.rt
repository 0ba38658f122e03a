// Banks: channels numbered from 0, each of them read as a head is read.
#![tactic(auto)]

mod banks;
mod faults;
mod joined_banks;
mod lone_banks;
mod one_read;

pub use banks::Bank;
pub use faults::BankFault;
pub use joined_banks::{Joined, LIMIT};
pub use lone_banks::Lone;
pub use one_read::read_one;

#[cfg(test)]
mod tests {
    use super::*;
    use heads::{EncoderTrack, Head, HeadFault, PhaseTable};
    use records::Fault;

    type Two = Joined<Lone<EncoderTrack>, Lone<EncoderTrack>>;

    fn track(start: u32) -> Lone<EncoderTrack> {
        Lone::new(EncoderTrack::new(40, start, 5, 1, 2))
    }

    fn four(start: u32, last: u32) -> Joined<Two, Two> {
        Joined::new(
            Joined::new(track(start), track(start)),
            Joined::new(track(start), track(last)),
        )
    }

    #[test]
    fn eight_channels_and_nine(rt: HostRuntime) {
        let mut eight = Joined::new(four(10, 11), four(20, 21));
        assert_eq!(rt; eight.count(), 8);
        assert_eq!(rt; eight.read(7), Ok(21));
        let mut nine = Joined::new(eight, track(30));
        assert_eq!(rt; nine.count(), 0);
        assert_eq!(rt; nine.read(8), Err(BankFault::NoSuchChannel { channel: 8 }));
        assert_eq!(rt; nine.read(0), Err(BankFault::NoSuchChannel { channel: 0 }));
        assert_eq!(rt;
            nine.figures(0),
            Err(BankFault::NoSuchChannel { channel: 0 })
        );
    }

    #[test]
    fn a_fault_of_the_second_bank(rt: HostRuntime) {
        let (a, b) = ([19, 18], [40, 36]);
        let mut bank = Joined::new(
            Lone::new(PhaseTable::new(&a, 30, 2)),
            Lone::new(PhaseTable::new(&b, 40, 2)),
        );
        let wild = BankFault::Refused {
            channel: 1,
            fault: HeadFault::Wild {
                depth: 0,
                first: 40,
                second: 40,
            },
        };
        assert_eq!(rt; bank.read(1), Err(wild));
        assert_eq!(rt; bank.read(2), Err(BankFault::NoSuchChannel { channel: 2 }));
        assert_eq!(rt; bank.read(0), Ok(19));
        assert_eq!(rt; bank.read(1), Ok(36));
        assert_eq!(rt; Fault::from(wild).channel, 1);
    }
}
