// The middle of a log's records.
ghost use Rattle.std.specs.Prelude.{◌≡◌, length, MatchOption};
ghost use Rattle.logs.specs.FixOrder.{fix_lesser};
ghost use Rattle.logs.specs.Logs.{held};
ghost use Rattle.logs.specs.MiddleRecords.{InMiddle};

use crate::{ByMean, Log};
use records::{Fix, Order, middle};

impl<'a, T: Drop> Log<'a, T> {
    /// The record in the middle of the log under an order, or none of no records.
    pub fn middle<O: Order<T>>(&self, order: &O) -> Option<&T>
        ensures { MatchOption result (length (held self.now) ≡ 0) (λ x. InMiddle O.Order.lesser (held self.now) x.now) }
    {
        let place = middle(order, self.records())?;
        self.record(place)
    }
}

impl<'a> Log<'a, Fix> {
    /// The fix in the middle, by mean and then by count, or none of no fixes.
    pub fn middle_fix(&self) -> Option<&Fix>
        ensures { MatchOption result (length (held self.now) ≡ 0) (λ x. InMiddle fix_lesser (held self.now) x.now) }
    {
        self.middle(&ByMean)
    }
}
