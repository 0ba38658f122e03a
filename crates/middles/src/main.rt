// middles: prints how many comparisons the middle of a list takes, for lists of growing length.
#![tactic(auto)]

mod counted;
mod scattered;

use counted::Counted;
use records::{Ascending, middle};
use std::cell::Cell;
use std::io;

/// Prints the comparisons, the place and the number in the middle of the list of `n` scattered numbers.
fn tell(rt: &HostRuntime, n: u64) -> io::Result<()> {
    let numbers = scattered::list(rt.alloc(), n)?;
    let order = Counted {
        order: Ascending,
        count: Cell::new(0),
    };
    match middle(&order, &numbers) {
        Some(place) => {
            let count = order.count.get();
            println!(rt; "{n} items: {count} comparisons, the middle at place {place}")
        }
        None => println!(rt; "no items"),
    }
}

fn main(rt: HostRuntime) -> io::Result<()> {
    for n in [1000, 10000, 100000] {
        tell(&rt, n)?;
    }
    Ok(())
}
