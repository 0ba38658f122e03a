// The middle of many items: the bounds that it lies between are narrowed from item to item. No item is moved, and none is copied.
ghost use Rattle.std.specs.Prelude.{◌≡◌, ◌+◌, ◌-◌, ◌/◌, ◌<◌, length};
ghost use Rattle.std.specs.Option.{option_copied, option_map};
ghost use Rattle.records.specs.Bounds.{alike, between, Picks, FirstEqual};
ghost use Rattle.records.specs.Middles.{FindsMiddle};

use crate::middles::{side, standing};
use crate::orders::{Order, compared};
use std::cmp::Ordering;

/// Items, and the bounds that their middle lies between: each an item, or none.
#[derive(Drop)]
struct Narrowing<'a, 'o, T, O> {
    order: &'o O,
    items: &'a [T],
    low: Option<&'a T>,
    high: Option<&'a T>,
    /// How many items are greater than `low`, and how many smaller than `high`.
    over: usize,
    under: usize,
}

impl<'a, 'o, T, O: Order<T>> Narrowing<'a, 'o, T, O> {
    /// Whether `x` is strictly between the bounds.
    fn is_between(&self, x: &T) -> bool
        ensures { result ≡ between O.Order.lesser (option_copied self.now.low) (option_copied self.now.high) x.now }
    {
        self.low.is_none_or(|low| self.order.is_less(low, x))
            && self.high.is_none_or(|high| self.order.is_less(x, high))
    }

    /// Half of how many items are between the bounds, and one more.
    fn half(&self) -> usize
        ensures { result ≡ (self.now.over - (length self.now.items.now - self.now.under)) / 2 + 1 }
    {
        let outside = self.items.len().saturating_sub(self.under);
        self.over.saturating_sub(outside) / 2 + 1
    }

    /// An item between the bounds, with its place: from the first half of those, the last.
    fn pick(&self) -> Option<(usize, &'a T)>
        ensures { Picks O.Order.lesser self.now.items.now (option_copied self.now.low) (option_copied self.now.high) (option_map (λ p. (p.0, p.1.now)) result) }
    {
        self.items
            .iter()
            .enumerate()
            .filter(|(_, x)| self.is_between(x))
            .take(self.half())
            .last()
    }
}

/// Whether neither of the two is the lesser.
fn is_alike<T, O: Order<T>>(order: &O, a: &T, b: &T) -> bool
    ensures { result ≡ alike O.Order.lesser a.now b.now }
{
    compared(order, a, b).is_eq()
}

/// The first place of an item equal in the order to the one at `p`.
// `order` and `items` are two parameters here and below, as the public calls have them, whose signatures stay.
fn first_equal<T, O: Order<T>>(order: &O, items: &[T], p: usize) -> usize
    requires { p < length items.now }
    ensures { FirstEqual O.Order.lesser items.now p result }
{
    let x = &items[p];
    items[..p]
        .iter()
        .position(|y| is_alike(order, y, x))
        .unwrap_or(p)
}

/// The place of the first item with at most (n - 1) / 2 smaller and at most
/// n / 2 greater items, by narrowing: for many items. Each round leaves out
/// one item or more.
pub fn middle_of_many<T, O: Order<T>>(order: &O, items: &[T]) -> Option<usize>
    ensures { FindsMiddle O.Order.lesser items.now result }
{
    let n = items.len();
    let mut narrowing = Narrowing {
        order,
        items,
        low: None,
        high: None,
        over: n,
        under: n,
    };
    while let Some((p, x)) = narrowing.pick() {
        let (below, above) = standing(order, items, x);
        match side(n, below, above) {
            Ordering::Less => {
                narrowing.high = Some(x);
                narrowing.under = below;
            }
            Ordering::Greater => {
                narrowing.low = Some(x);
                narrowing.over = above;
            }
            Ordering::Equal => return Some(first_equal(order, items, p)),
        }
    }
    None
}
