// Worked piles, which the definitions compute to.
ghost use Rattle.piles.specs.Worked.{Worked};

/// The worked piles follow from the definitions that heads and layers are
/// promised by: a burst whose readings pass the end of the circle, a burst that
/// is too wide, and a track that passes its modulus.
pub fn worked_piles()
    ensures { Worked }
{}
