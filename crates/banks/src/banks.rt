// What a bank is.
ghost use Rattle.std.specs.Prelude.{◌≡◌, List, length};
ghost use Rattle.banks.specs.Banks.{BankLaws, BankReads, channel_figures};
ghost use Rattle.heads.specs.Channels.{Channel};

use crate::BankFault;
use heads::Figures;

/// Channels numbered from 0: a bank's meaning is the list of what they mean.
pub trait Bank {
    ghost channels: { Self → List Channel };

    ghost laws: { BankLaws channels };

    fn count(&self) -> usize
        ensures { result ≡ length (channels self.now) };

    fn figures(&self, channel: usize) -> Result<Figures, BankFault>
        ensures { result ≡ channel_figures channel (channels self.now) };

    fn read(&mut self, channel: usize) -> Result<u32, BankFault>
        ensures { BankReads (channels self.old) channel result (channels self.new) };
}
