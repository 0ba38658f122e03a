// The order of fixes: by mean, and then by count.
ghost use Rattle.std.specs.Prelude.{◌≡◌, Decides};
ghost use Rattle.logs.specs.FixOrder.{Before, fix_key, fix_lesser};
ghost use Rattle.logs.specs.FixOrderLaws.{fix_total};

use records::{Fix, InTurn, Order, OwnOrder};

/// What a fix is ordered by.
fn key(fix: &Fix) -> (u64, u64)
    ensures { result ≡ fix_key fix.now }
{
    (fix.mean, fix.count)
}

/// Fixes by their means, and by their counts where the means are equal. Fixes
/// that agree in both are equal in this order, wherever they start.
#[derive(Clone, Copy, Drop)]
pub struct ByMean;

impl Order<Fix> for ByMean {
    ghost lesser = { fix_lesser };

    ghost laws = { fix_total };

    fn is_less(&self, a: &Fix, b: &Fix) -> bool
        ensures answers { result ≡ fix_lesser a.now b.now }
        ensures decides { Decides result (Before a.now b.now) }
    {
        let by_key = InTurn {
            first: OwnOrder,
            second: OwnOrder,
        };
        by_key.is_less(&key(a), &key(b))
    }
}
