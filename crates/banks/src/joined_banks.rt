// Joined banks: two banks as one, the second's channels after the first's.
ghost use Rattle.std.specs.Prelude.{◌≡◌};
ghost use Rattle.banks.specs.JoinedBankLaws.{both_laws};
ghost use Rattle.banks.specs.JoinedBanks.{both, joined_count};
ghost use Rattle.banks.specs.JoinedPlaces.{Placed, Stands, carried};

mod making;

use crate::{Bank, BankFault};
use heads::Figures;

/// As many channels as joined banks may have together.
pub const LIMIT: usize = 8;

/// Two banks as one. Above `LIMIT` channels together, it has none.
#[derive(Drop)]
pub struct Joined<A, B> {
    first: A,
    second: B,
}

// How many channels banks of these counts have as one; a sum past the greatest number is above the limit.
// The limit of joining and that of a recording are two rules, so playbacks have a test of their own.
fn together(first: usize, second: usize) -> usize
    ensures { result ≡ joined_count first second }
{
    let total = first.saturating_add(second);
    if total <= LIMIT { total } else { 0 }
}

// The second bank's own number of a channel of both; None of a channel that is the first's.
fn own_number(first: usize, second: usize, channel: usize) -> Result<Option<usize>, BankFault>
    ensures { Stands first second channel result }
{
    if channel >= together(first, second) {
        return Err(BankFault::NoSuchChannel { channel });
    }
    Ok(channel.checked_sub(first))
}

// What one of the two banks answered, with the channel's number in both.
fn numbered<T>(answer: Result<T, BankFault>, channel: usize) -> Result<T, BankFault>
    ensures { result ≡ carried channel answer }
{
    answer.map_err(|fault| fault.at(channel))
}

impl<A: Bank, B: Bank> Joined<A, B> {
    // The second bank's own number of a channel, and how the two lists of channels are one there.
    fn place(&self, channel: usize) -> Result<Option<usize>, BankFault>
        ensures { Placed (A.Bank.channels self.now.first) (B.Bank.channels self.now.second) channel result }
    {
        own_number(self.first.count(), self.second.count(), channel)
    }
}

impl<A: Bank, B: Bank> Bank for Joined<A, B> {
    ghost channels = { λ s. both (A.Bank.channels s.first) (B.Bank.channels s.second) };

    ghost laws = { λ s. both_laws (A.Bank.channels s.first) (B.Bank.channels s.second) (A.Bank.laws s.first) (B.Bank.laws s.second) };

    fn count(&self) -> usize {
        together(self.first.count(), self.second.count())
    }

    fn figures(&self, channel: usize) -> Result<Figures, BankFault> {
        match self.place(channel)? {
            None => self.first.figures(channel),
            Some(own) => numbered(self.second.figures(own), channel),
        }
    }

    fn read(&mut self, channel: usize) -> Result<u32, BankFault> {
        match self.place(channel)? {
            None => self.first.read(channel),
            Some(own) => numbered(self.second.read(own), channel),
        }
    }
}
