// Where tables, tracks and layers stop being fit.
use super::*;
use heads::EncoderTrack;

const NOTHING: [u32; 0] = [];

#[test]
fn tables_are_fit_within_the_limits_of_plates(rt: HostRuntime) {
    let cases = [
        (30, 2, true),
        (8, 2, false),
        (9, 2, true),
        (1, 0, true),
        (0, 0, false),
        (2147483648, 0, true),
        (2147483649, 0, false),
    ];
    for (modulus, bound, fit) in cases {
        let table = PhaseTable::new(&NOTHING, modulus, bound);
        assert_eq!(rt;
            table.figures().fit,
            fit,
            "modulus {modulus}, bound {bound}"
        );
    }
}

#[test]
fn tracks_are_fit_within_the_limits_of_their_numbers(rt: HostRuntime) {
    let unfit = told(false, 1, 0, 0);
    let cases = [
        (39, 39, 10, 1048576, told(true, 40, 9, 0)),
        (40, 5, 3, 3, unfit),
        (37, 40, 3, 3, unfit),
        (37, 5, 0, 3, unfit),
        (37, 5, 11, 3, unfit),
        (37, 5, 3, 1048577, unfit),
    ];
    for (start, step, grain, count, expected) in cases {
        let track = EncoderTrack::new(40, start, step, grain, count);
        assert_eq!(rt;
            track.figures(),
            expected,
            "from {start} by {step}, grain {grain}, {count} times"
        );
    }
    let mut widest = EncoderTrack::new(40, 39, 39, 10, 2);
    for answer in [Ok(30), Ok(30), Err(HeadFault::End)] {
        assert_eq!(rt; widest.read(), answer);
    }
}

#[test]
fn zeros_are_fit_below_the_modulus_and_bursts_of_odd_sizes_to_15(rt: HostRuntime) {
    let fit = told(true, 30, 2, 1);
    let unfit = told(false, 1, 0, 1);
    for (number, expected) in [(0, fit), (29, fit), (30, unfit)] {
        let zero = Zero::new(PhaseTable::new(&NOTHING, 30, 2), number);
        assert_eq!(rt; zero.figures(), expected, "zero {number}");
    }
    for (size, expected) in [
        (0, unfit),
        (1, fit),
        (2, unfit),
        (15, fit),
        (16, unfit),
        (17, unfit),
    ] {
        let burst = Burst::new(PhaseTable::new(&NOTHING, 30, 2), size);
        assert_eq!(rt; burst.figures(), expected, "burst of {size}");
    }
}

#[test]
fn gears_are_fit_within_the_limits_of_plates(rt: HostRuntime) {
    let unfit = told(false, 1, 0, 1);
    let cases = [
        (30, 2, 2, 10, told(true, 60, 14, 1)),
        (30, 2, 2, 11, unfit),
        (30, 2, 0, 0, unfit),
        (30, 2, 71582788, 0, told(true, 2147483640, 143165576, 1)),
        (30, 2, 71582789, 0, unfit),
        (1, 0, 2147483648, 0, told(true, 2147483648, 0, 1)),
    ];
    for (modulus, bound, scale, slack, expected) in cases {
        let gear = Gear::new(PhaseTable::new(&NOTHING, modulus, bound), scale, slack);
        assert_eq!(rt;
            gear.figures(),
            expected,
            "modulus {modulus}, scale {scale}, slack {slack}"
        );
    }
}
