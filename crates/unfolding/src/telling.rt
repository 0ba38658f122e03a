// What an unfolding tells.
ghost use Rattle.std.specs.Prelude.{◌≡◌};
ghost use Rattle.unfolding.specs.Told.{folds_of, quotients_of, unfolded_of};

use crate::Unfolding;

impl Unfolding {
    /// The quotient of each channel, rounded towards minus infinity; channel 0's is 0.
    pub fn quotients(&self) -> &[i64]
        ensures { result.now ≡ quotients_of self.now.folding }
    {
        self.folding.quotients.as_slice()
    }

    /// How often each channel has folded; it may be -1.
    pub fn folds(&self) -> &[i64]
        ensures { result.now ≡ folds_of self.now.folding }
    {
        self.folding.folds.as_slice()
    }

    /// Each reading with its folds put back.
    pub fn unfolded(&self) -> &[i64]
        ensures { result.now ≡ unfolded_of self.now.folding }
    {
        self.folding.unfolded.as_slice()
    }

    /// The ends of the bracket before reduction, `lo` and `hi`.
    pub fn ends(&self) -> (i64, i64)
        ensures { result ≡ self.now.ends }
    {
        self.ends
    }

    /// The first position of the bracket.
    pub fn start(&self) -> u64
        ensures { result ≡ self.now.start }
    {
        self.start
    }

    /// How many positions the bracket has, going up and passing from the last to 0.
    pub fn count(&self) -> u64
        ensures { result ≡ self.now.count }
    {
        self.count
    }

    /// The mean of the unfolded readings, as a position.
    pub fn mean(&self) -> u64
        ensures { result ≡ self.now.mean }
    {
        self.mean
    }
}
