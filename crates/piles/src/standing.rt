// What holds of any layers over any head: its laws, where it stands, what reads in turn answer and leave, and which faults it shows.
ghost use Rattle.piles.specs.FirstFaults.{BurstsSteady, PilesFirst};
ghost use Rattle.piles.specs.Piles.{LayersAdvance, PilesLawful, PilesStand};
ghost use Rattle.piles.specs.Reads.{PilesAdvance, ReadInTurn};
ghost use Rattle.piles.specs.Steady.{LessStands, PilesSteady, StandsOn};

/// States what holds of every pile: it has no code, and its promise is the theorem.
pub fn piles_stand()
    ensures lawful { PilesLawful }
    ensures stands { PilesStand }
    ensures advance { LayersAdvance }
    ensures reads { ReadInTurn }
    ensures read_on { PilesAdvance }
    ensures less_stands { LessStands }
    ensures stands_on { StandsOn }
    ensures steady { PilesSteady }
    ensures burst_faults { BurstsSteady }
    ensures pile_faults { PilesFirst }
{}
