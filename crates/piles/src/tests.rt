// Piles that are read, with expected values worked by hand.
ghost use Rattle.heads.specs.Laws.{head_laws};
ghost use Rattle.piles.specs.Deep.{deep_laws, deep_told, deep_waits};

use heads::{Figures, Head, HeadFault, PhaseTable, Plate};
use layers::{Burst, Gear, Zero};

mod faults;
mod limits;

const DARK: u32 = 4294967295;

// A head at the depth given, 255 at most, in which nothing waits.
#[derive(Drop)]
struct Deep {
    depth: u16,
}

impl Plate for Deep {
    ghost told = { λ s. deep_told s.depth };

    fn figures(&self) -> Figures {
        Figures {
            fit: true,
            modulus: 30,
            bound: 2,
            depth: self.depth.min(255),
        }
    }
}

impl Head for Deep {
    ghost shape = { λ s. deep_told s.depth };

    ghost waiting = { λ _. deep_waits };

    ghost laws = { head_laws (λ s. deep_told s.depth) (λ s. deep_waits) (λ s. deep_laws s.depth) };

    fn head_figures(&self) -> Figures {
        self.figures()
    }

    fn read(&mut self) -> Result<u32, HeadFault> {
        Err(HeadFault::End)
    }
}

fn told(fit: bool, modulus: u32, bound: u32, depth: u16) -> Figures {
    Figures {
        fit,
        modulus,
        bound,
        depth,
    }
}

#[test]
fn a_burst_takes_the_middle_round_the_circle(rt: HostRuntime) {
    let numbers = [29, 1, 0];
    let mut burst = Burst::new(PhaseTable::new(&numbers, 30, 2), 3);
    assert_eq!(rt; burst.read(), Ok(0));
    assert_eq!(rt; burst.read(), Err(HeadFault::End));
}

#[test]
fn a_burst_that_is_too_wide_is_spread(rt: HostRuntime) {
    let numbers = [29, 4, 0];
    let mut burst = Burst::new(PhaseTable::new(&numbers, 30, 2), 3);
    assert_eq!(rt;
        burst.read(),
        Err(HeadFault::Spread {
            depth: 1,
            first: 5,
            second: 4,
        })
    );
}

#[test]
fn faults_pass_three_layers_and_an_unfinished_burst_is_gone(rt: HostRuntime) {
    let numbers = [29, 1, 0, 5, DARK, 7, 10, 14, 12, 99, 3, 4, 20];
    let zero = Zero::new(PhaseTable::new(&numbers, 30, 2), 3);
    let mut pile = Gear::new(Burst::new(zero, 3), 2, 1);
    assert_eq!(rt; pile.figures(), told(true, 60, 5, 3));
    assert_eq!(rt; pile.read(), Ok(6));
    let dark = HeadFault::Dark {
        depth: 0,
        first: 0,
        second: 0,
    };
    assert_eq!(rt; pile.read(), Err(dark));
    assert_eq!(rt; pile.read(), Ok(30));
    let wild = HeadFault::Wild {
        depth: 0,
        first: 99,
        second: 30,
    };
    assert_eq!(rt; pile.read(), Err(wild));
    assert_eq!(rt; pile.read(), Err(HeadFault::End));
}

#[test]
fn a_spread_keeps_the_depth_where_it_arose(rt: HostRuntime) {
    let numbers = [29, 4, 0];
    let gear = Gear::new(PhaseTable::new(&numbers, 30, 2), 3, 0);
    let mut pile = Zero::new(Burst::new(gear, 3), 10);
    assert_eq!(rt;
        pile.read(),
        Err(HeadFault::Spread {
            depth: 2,
            first: 15,
            second: 12,
        })
    );
}

#[test]
fn the_lowest_unfit_part_tells_its_depth(rt: HostRuntime) {
    let numbers = [1];
    let zero = Zero::new(PhaseTable::new(&numbers, 30, 2), 30);
    let mut pile = Burst::new(Gear::new(zero, 2, 0), 3);
    assert_eq!(rt; pile.figures(), told(false, 1, 0, 1));
    assert_eq!(rt; pile.read(), Err(HeadFault::Unfit { depth: 1 }));
    let even = Burst::new(PhaseTable::new(&numbers, 30, 2), 2);
    assert_eq!(rt; even.figures(), told(false, 1, 0, 1));
    let long = Burst::new(PhaseTable::new(&numbers, 30, 2), 17);
    assert_eq!(rt; long.figures(), told(false, 1, 0, 1));
}

#[test]
fn a_layer_is_fit_up_to_depth_255(rt: HostRuntime) {
    let last = Zero::new(Deep { depth: 254 }, 29);
    assert_eq!(rt; last.figures(), told(true, 30, 2, 255));
    let beyond = Zero::new(Burst::new(Deep { depth: 255 }, 1), 29);
    assert_eq!(rt; beyond.figures(), told(false, 1, 0, 256));
}
