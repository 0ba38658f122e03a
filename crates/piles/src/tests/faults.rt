// Faults in piles of three layers: each place of a burst, bursts over bursts, and a track below.
use super::*;
use heads::EncoderTrack;

const DARK_BELOW: Result<u32, HeadFault> = Err(HeadFault::Dark {
    depth: 0,
    first: 0,
    second: 0,
});

// A number that the table at the foot, of modulus 30, does not take.
fn wild(number: u64) -> Result<u32, HeadFault> {
    Err(HeadFault::Wild {
        depth: 0,
        first: number,
        second: 30,
    })
}

fn spread(depth: u16, first: u64, second: u64) -> Result<u32, HeadFault> {
    Err(HeadFault::Spread {
        depth,
        first,
        second,
    })
}

#[test]
fn the_first_fault_of_a_burst_is_its_answer_in_any_place(rt: HostRuntime) {
    let numbers = [
        DARK, 7, 8, 5, DARK, 6, 5, 6, DARK, 99, 5, 6, 5, 99, 6, 5, 6, 99, DARK, 99, 1, 99, DARK, 2,
        1, 30, DARK, 29, 4, 0, 29, 1, 0, DARK, 5,
    ];
    let expected = [
        DARK_BELOW,
        DARK_BELOW,
        DARK_BELOW,
        wild(99),
        wild(99),
        wild(99),
        DARK_BELOW,
        wild(99),
        wild(30),
        spread(2, 5, 4),
        Ok(6),
        Err(HeadFault::End),
        Err(HeadFault::End),
    ];
    let zero = Zero::new(PhaseTable::new(&numbers, 30, 2), 3);
    let mut pile = Gear::new(Burst::new(zero, 3), 2, 1);
    for (read, &answer) in expected.iter().enumerate() {
        assert_eq!(rt; pile.read(), answer, "read {read}");
    }
}

#[test]
fn a_burst_over_a_burst_passes_its_spreads_and_makes_its_own(rt: HostRuntime) {
    let numbers = [
        29, 4, 0, 1, 2, 3, 1, 2, 3, 1, 2, 3, 29, 4, 0, 1, 2, 3, 1, 2, 3, 1, 2, 3, 29, 4, 0, 1, 1,
        1, 5, 5, 5, 0, 0, 0,
    ];
    let expected = [
        spread(2, 5, 4),
        spread(2, 5, 4),
        spread(2, 5, 4),
        spread(3, 5, 4),
        Err(HeadFault::End),
    ];
    let zero = Zero::new(PhaseTable::new(&numbers, 30, 2), 1);
    let mut pile = Burst::new(Burst::new(zero, 3), 3);
    for (read, &answer) in expected.iter().enumerate() {
        assert_eq!(rt; pile.read(), answer, "read {read}");
    }
}

#[test]
fn a_pile_over_a_track_takes_the_middle_or_is_spread(rt: HostRuntime) {
    let cases = [
        (1, 6, [Ok(2), Ok(10), Err(HeadFault::End)]),
        (
            5,
            3,
            [spread(3, 20, 8), Err(HeadFault::End), Err(HeadFault::End)],
        ),
    ];
    for (step, count, expected) in cases {
        let track = EncoderTrack::new(40, 37, step, 3, count);
        let mut pile = Burst::new(Gear::new(Zero::new(track, 5), 2, 0), 3);
        assert_eq!(rt; pile.figures(), told(true, 80, 4, 3));
        for (read, &answer) in expected.iter().enumerate() {
            assert_eq!(rt; pile.read(), answer, "step {step}, read {read}");
        }
    }
}
