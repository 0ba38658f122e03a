// An order that counts how often it is asked.
use records::Order;
use std::cell::Cell;

/// Another order, with the number of comparisons so far.
#[derive(Drop)]
pub struct Counted<O> {
    pub order: O,
    pub count: Cell<u64>,
}

impl<T, O: Order<T>> Order<T> for Counted<O> {
    ghost lesser = { O.Order.lesser };

    ghost laws = { O.Order.laws };

    fn is_less(&self, a: &T, b: &T) -> bool {
        self.count.update(|n| n.saturating_add(1));
        self.order.is_less(a, b)
    }
}
