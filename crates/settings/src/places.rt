// Numbers at the front of the places that a setting has for them.
ghost use Rattle.std.specs.Prelude.{◌≡◌, ℕ, ◌≤◌, length, slice_index, take};

/// The numbers, and 0 in the places behind them.
#[tactic(auto, using(crate::proofs::Placed::behind, crate::proofs::Placed::eight_zeros))]
pub(crate) fn in_places(numbers: &[u32]) -> [u32; 8]
    requires { length numbers.now ≤ 8 }
    ensures front { take (length numbers.now) result ≡ numbers.now }
    ensures same { (k : ℕ) → slice_index result k ≡ slice_index numbers.now k }
{
    let mut all = [0; 8];
    all[..numbers.len()].copy_from_slice(numbers);
    all
}
