// Orders: which of two items is the lesser, told by a value, so that one type may have several.
ghost use Rattle.std.specs.Prelude.{◌≡◌, Bool, int_lt};
ghost use Rattle.records.specs.Orders.{Compares, Total, in_turn, lesser_by};
ghost use Rattle.records.specs.OrderLaws.{in_turn_total, lesser_by_total, whole_total};

use std::cmp::Ordering;

/// An order in which any two items compare. Items of which neither is the
/// lesser are equal in the order, and need not be the same.
pub trait Order<T> {
    ghost lesser: { T → T → Bool };

    /// Whether `a` is the lesser of the two.
    fn is_less(&self, a: &T, b: &T) -> bool
        ensures { result ≡ lesser a.now b.now };

    ghost laws: { Total lesser };
}

/// How `a` stands to `b` in the order.
pub fn compared<T, O: Order<T>>(order: &O, a: &T, b: &T) -> Ordering
    ensures { Compares O.Order.lesser a.now b.now result }
{
    if order.is_less(a, b) {
        Ordering::Less
    } else if order.is_less(b, a) {
        Ordering::Greater
    } else {
        Ordering::Equal
    }
}

/// Whole numbers from the least up.
// For one type alone, so that a call with it says of which type its numbers are.
#[derive(Clone, Copy, Drop)]
pub struct Ascending;

impl Order<i64> for Ascending {
    ghost lesser = { int_lt };

    ghost laws = { whole_total };

    fn is_less(&self, a: &i64, b: &i64) -> bool {
        *a < *b
    }
}

/// Items from the least up, as their own type orders them.
#[derive(Clone, Copy, Drop)]
pub struct OwnOrder;

impl<T: Ord> Order<T> for OwnOrder {
    ghost lesser = { lesser_by T.cmp };

    ghost laws = { lesser_by_total T.Ord.total };

    fn is_less(&self, a: &T, b: &T) -> bool {
        a < b
    }
}

/// Pairs by their first parts, and by their second where the first are equal.
#[derive(Clone, Copy, Drop)]
pub struct InTurn<P, Q> {
    pub first: P,
    pub second: Q,
}

impl<A, B, P: Order<A>, Q: Order<B>> Order<(A, B)> for InTurn<P, Q> {
    ghost lesser = { in_turn P.Order.lesser Q.Order.lesser };

    ghost laws = { in_turn_total P.Order.lesser Q.Order.lesser P.Order.laws Q.Order.laws };

    fn is_less(&self, a: &(A, B), b: &(A, B)) -> bool {
        // By two tests and not by `compared`, whose answer would first be made and then told apart.
        if self.first.is_less(&a.0, &b.0) {
            true
        } else if self.first.is_less(&b.0, &a.0) {
            false
        } else {
            self.second.is_less(&a.1, &b.1)
        }
    }
}
