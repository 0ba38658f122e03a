// The middle of a few items, found by counting.
ghost use Rattle.std.specs.Prelude.{◌≡◌, ◌-◌, ◌/◌, ◌<◌, ◌≤◌};
ghost use Rattle.std.specs.Ordering.{MatchOrdering};
ghost use Rattle.records.specs.Middles.{smaller, greater, is_central, FindsMiddle};

use crate::orders::{Order, compared};
use std::cmp::Ordering;

/// How many of the items are smaller than `x`, and how many greater.
pub(crate) fn standing<T, O: Order<T>>(order: &O, items: &[T], x: &T) -> (usize, usize)
    ensures below { result.0 ≡ smaller O.Order.lesser items.now x.now }
    ensures above { result.1 ≡ greater O.Order.lesser items.now x.now }
{
    let mut below = 0;
    let mut above = 0;
    // One pass makes both counts, as each item is compared once: two chains would compare it twice.
    for y in items {
        match compared(order, y, x) {
            Ordering::Less => below += 1,
            Ordering::Equal => {}
            Ordering::Greater => above += 1,
        }
    }
    (below, above)
}

/// Where the middle of `n` items lies, seen from one with so many smaller and greater.
pub(crate) fn side(n: usize, below: usize, above: usize) -> Ordering
    ensures { MatchOrdering result ((n - 1) / 2 < below) ((below ≤ (n - 1) / 2) × (above ≤ n / 2)) (n / 2 < above) }
{
    if below > n.saturating_sub(1) / 2 {
        Ordering::Less
    } else if above > n / 2 {
        Ordering::Greater
    } else {
        Ordering::Equal
    }
}

/// Whether no more than half of the items are smaller than `x`, and no more than half greater.
fn is_amid<T, O: Order<T>>(order: &O, items: &[T], x: &T) -> bool
    ensures { result ≡ is_central O.Order.lesser items.now x.now }
{
    let (below, above) = standing(order, items, x);
    side(items.len(), below, above).is_eq()
}

/// The place of the first item with at most (n - 1) / 2 smaller and at most
/// n / 2 greater items, by counting: for few items.
pub fn middle_of_few<T, O: Order<T>>(order: &O, items: &[T]) -> Option<usize>
    ensures { FindsMiddle O.Order.lesser items.now result }
{
    items.iter().position(|x| is_amid(order, items, x))
}
