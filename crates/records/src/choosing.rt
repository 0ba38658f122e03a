// The middle of any number of items: counting serves a few, narrowing the rest.
ghost use Rattle.records.specs.Middles.{FindsMiddle};

use crate::middles::middle_of_few;
use crate::narrowing::middle_of_many;
use crate::orders::Order;

/// Up to here items are counted; the limit is a guess, and no answer hangs on it.
const FEW: usize = 8;

/// The place of the first item with at most (n - 1) / 2 smaller and at most
/// n / 2 greater items, of `n` items under an order; `None` of no items.
pub fn middle<T, O: Order<T>>(order: &O, items: &[T]) -> Option<usize>
    ensures { FindsMiddle O.Order.lesser items.now result }
{
    if items.len() <= FEW {
        middle_of_few(order, items)
    } else {
        middle_of_many(order, items)
    }
}
