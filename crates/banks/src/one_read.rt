// One channel of any bank is read: what that means for each channel by itself.
ghost use Rattle.banks.specs.OneRead.{ReadingBelow, OneRead};
ghost use Rattle.banks.specs.Rounds.{TurnByTurn};

use crate::{Bank, BankFault};

/// Reads a channel. It is read as a head is read, a reading is below the
/// modulus that the channel tells, and every other channel stays. The law says
/// that channels that are read in turn each answer as if no other had been read.
pub fn read_one<B: Bank>(bank: &mut B, channel: usize) -> Result<u32, BankFault>
    ensures one { OneRead (B.Bank.channels bank.old) channel result (B.Bank.channels bank.new) }
    ensures below { ReadingBelow (B.Bank.channels bank.old) channel result }
    ensures turns { TurnByTurn }
{
    bank.read(channel)
}
