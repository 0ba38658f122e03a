// Lone banks: one channel, over any head.
ghost use Rattle.std.specs.Prelude.{◌≡◌, [], ◌∷◌};
ghost use Rattle.heads.specs.Channels.{channel_of};
ghost use Rattle.heads.specs.Laws.{lawful};

mod making;

use crate::{Bank, BankFault};
use heads::{Figures, Head};

/// One head as a bank: its channel is number 0.
#[derive(Drop)]
pub struct Lone<H> {
    head: H,
}

impl<H: Head> Bank for Lone<H> {
    ghost channels = { λ s. channel_of (H.Head.shape s.head) (H.Head.waiting s.head) ∷ [] };

    ghost laws = { λ s. (lawful H.Head.laws s.head, tt) };

    fn count(&self) -> usize {
        1
    }

    fn figures(&self, channel: usize) -> Result<Figures, BankFault> {
        match channel {
            0 => Ok(self.head.head_figures()),
            _ => Err(BankFault::NoSuchChannel { channel }),
        }
    }

    fn read(&mut self, channel: usize) -> Result<u32, BankFault> {
        if channel != 0 {
            return Err(BankFault::NoSuchChannel { channel });
        }
        Ok(self.head.read()?)
    }
}
