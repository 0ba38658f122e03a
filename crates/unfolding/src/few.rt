// At most eight of something, one for each channel, in place: nothing here allocates.
ghost use Rattle.std.specs.Prelude.{◌≡◌, ◌+◌, ◌<◌, ◌≤◌, ⊤, [], ◌∷◌, ◌++◌, length, take};

use std::alloc::AllocError;

/// A short list: the first `count` places are filled. An `ArrayVec` would be no `Copy`, which an
/// unfolding is.
pub struct Few<T> {
    places: [T; 8],
    count: usize,
    ghost within: { count ≤ 8 },
}

impl<T: Copy> Copy for Few<T> {}

// Written by hand: over a ghost field and a type parameter none is derived.
impl<T: Copy> Clone for Few<T> {
    ghost is_clone = { λ few other. other ≡ few };

    ghost is_infallible = { λ _. ⊤ };

    fn clone(&self) -> Result<Self, AllocError> {
        Ok(*self)
    }
}

impl<T: Copy + Default> Few<T> {
    ghost use Rattle.unfolding.specs.Few.{items};

    /// None yet.
    pub(crate) fn new() -> Self
        ensures { items result ≡ [] }
    {
        Few {
            places: [T::default(); 8],
            count: 0,
        }
    }

    /// Adds one behind the others.
    pub(crate) fn push(&mut self, item: T)
        requires { length (items self.old) < 8 }
        ensures { items self.new ≡ items self.old ++ item ∷ [] }
    {
        // By place: the list is in place and has no heap to grow on.
        self.places[self.count] = item;
        self.count += 1;
    }

    /// Those that are there.
    pub(crate) fn as_slice(&self) -> &[T]
        ensures { result.now ≡ items self.now }
    {
        &self.places[..self.count]
    }
}
