// Worked unfoldings, which the definitions compute to.
ghost use Rattle.unfolding.specs.Worked.{Worked};

/// The worked unfoldings follow from the definitions that `unfold` is promised
/// by: readings that agree, a quotient of -3, a bracket of one position, two
/// contradictions with their channels, plain remainders, and folding numbers of -1.
pub fn worked_unfoldings()
    ensures { Worked }
{}
