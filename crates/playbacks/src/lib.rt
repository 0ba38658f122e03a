// Playbacks: a recording as a bank, in which each channel goes down the rows by itself.
#![tactic(auto)]

mod columns;
mod playing;

use banks::Bank;
pub use playing::Playback;

#[cfg(test)]
mod tests {
    use super::*;
    use banks::{Bank, BankFault};
    use heads::HeadFault;

    // The note A, the rows 19 36 70 and 19 4294967295 37, the moduli 30, 40, 50 and the bounds 2.
    const BYTES: [u8; 65] = [
        65, 19, 0, 0, 0, 36, 0, 0, 0, 70, 0, 0, 0, 19, 0, 0, 0, 255, 255, 255, 255, 37, 0, 0, 0,
        30, 0, 0, 0, 2, 0, 0, 0, 40, 0, 0, 0, 2, 0, 0, 0, 50, 0, 0, 0, 2, 0, 0, 0, 25, 0, 0, 0, 2,
        0, 0, 0, 3, 0, 0, 0, 1, 0, 0, 0,
    ];

    fn refused(channel: usize, fault: HeadFault) -> Result<u32, BankFault> {
        Err(BankFault::Refused { channel, fault })
    }

    #[test]
    fn each_channel_goes_down_by_itself(rt: HostRuntime) {
        let mut bank = Playback::of(&BYTES);
        assert_eq!(rt; bank.read(1), Ok(36));
        let dark = HeadFault::Dark {
            depth: 0,
            first: 0,
            second: 0,
        };
        assert_eq!(rt; bank.read(1), refused(1, dark));
        assert_eq!(rt; bank.read(1), refused(1, HeadFault::End));
        let wild = HeadFault::Wild {
            depth: 0,
            first: 70,
            second: 50,
        };
        assert_eq!(rt; bank.read(2), refused(2, wild));
        assert_eq!(rt; bank.read(0), Ok(19));
        assert_eq!(rt; bank.read(3), Err(BankFault::NoSuchChannel { channel: 3 }));
    }

    #[test]
    fn what_is_no_recording_has_no_channel(rt: HostRuntime) {
        let mut bank = Playback::of(&BYTES[1..]);
        assert_eq!(rt; bank.count(), 0);
        assert_eq!(rt; bank.read(0), Err(BankFault::NoSuchChannel { channel: 0 }));
    }
}
