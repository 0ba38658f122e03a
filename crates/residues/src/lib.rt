// Whole numbers round a circle, and Euclid's method.
#![tactic(auto)]

mod circle;
mod divisors;

pub use circle::allows;
pub use divisors::{Shared, euclid, gcd};
