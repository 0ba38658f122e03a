// Layers: heads over other heads.
#![tactic(auto)]

mod bursts;
mod gathering;
mod gears;
mod layering;
mod offsets;
mod origins;
mod zeros;

pub use bursts::Burst;
pub use gears::Gear;
pub use zeros::Zero;

/// The most entries that a burst takes.
const MOST: usize = 15;

#[cfg(test)]
mod tests {
    use super::*;
    use heads::{EncoderTrack, Head, HeadFault, PhaseTable};

    #[test]
    fn a_track_passes_its_modulus(rt: HostRuntime) {
        let mut track = EncoderTrack::new(40, 37, 5, 3, 3);
        assert_eq!(rt; track.read(), Ok(36));
        assert_eq!(rt; track.read(), Ok(0));
        assert_eq!(rt; track.read(), Ok(6));
        assert_eq!(rt; track.read(), Err(HeadFault::End));
    }

    #[test]
    fn faults_pass_a_pile_unchanged(rt: HostRuntime) {
        let numbers = [29, 4294967295, 30];
        let mut pile = Gear::new(Zero::new(PhaseTable::new(&numbers, 30, 2), 3), 2, 1);
        assert_eq!(rt; pile.read(), Ok(4));
        assert_eq!(rt;
            pile.read(),
            Err(HeadFault::Dark {
                depth: 0,
                first: 0,
                second: 0,
            })
        );
        assert_eq!(rt;
            pile.read(),
            Err(HeadFault::Wild {
                depth: 0,
                first: 30,
                second: 30,
            })
        );
        assert_eq!(rt; pile.read(), Err(HeadFault::End));
    }
}
