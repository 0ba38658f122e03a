// What an unfolding keeps.
ghost use Rattle.std.specs.Prelude.{◌≡◌, length};
ghost use Rattle.unfolding.specs.Few.{items};

use crate::few::Few;

/// For each channel its quotient, its folding number and its unfolded reading.
#[derive(Clone, Copy)]
pub struct Folding {
    pub(crate) quotients: Few<i64>,
    pub(crate) folds: Few<i64>,
    pub(crate) unfolded: Few<i64>,
    ghost folds_paired: { length (items folds) ≡ length (items quotients) },
    ghost unfolded_paired: { length (items unfolded) ≡ length (items quotients) },
}

/// An unfolding: the folding, the two ends before reduction, the bracket of
/// positions that every reading allows, and the mean.
#[derive(Clone, Copy)]
pub struct Unfolding {
    pub(crate) folding: Folding,
    pub(crate) ends: (i64, i64),
    pub(crate) start: u64,
    pub(crate) count: u64,
    pub(crate) mean: u64,
}
