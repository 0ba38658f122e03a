// Lists of numbers without an order of their own, the same at every run.
ghost use Rattle.std.specs.Prelude.{◌≡◌, ◌<◌, IfOk};
ghost use Rattle.middles.specs.Scattered.{stir, scatter, scattered_list};

use std::alloc::{AllocError, Global};

/// A number with its high bits stirred into the low ones, and those up by a factor.
fn stirred(z: u64, shift: u32, factor: u64) -> u64
    requires { shift < 64 }
    ensures { result ≡ stir shift factor z }
{
    (z ^ (z >> shift)).wrapping_mul(factor)
}

/// The number at a place.
fn scattered(place: u64) -> i64
    ensures { result ≡ scatter place }
{
    let spread = place.wrapping_mul(0x9E3779B97F4A7C15);
    let once = stirred(spread, 30, 0xBF58476D1CE4E5B9);
    let twice = stirred(once, 27, 0x94D049BB133111EB);
    (twice / 2) as i64
}

/// The numbers at the first `n` places.
pub fn list(heap: Global, n: u64) -> Result<Vec<i64>, AllocError>
    ensures { IfOk result (λ v. v.items ≡ scattered_list n) }
{
    (0..n).map(scattered).collect(heap)
}
