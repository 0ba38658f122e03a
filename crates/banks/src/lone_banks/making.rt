// How a lone bank is made.
ghost use Rattle.std.specs.Prelude.{◌≡◌, [], ◌∷◌};
ghost use Rattle.heads.specs.Channels.{channel_of};

use super::Lone;
use crate::Bank;
use heads::Head;

impl<H: Head> Lone<H> {
    /// Its one channel is the head.
    pub fn new(head: H) -> Lone<H>
        ensures head { result.head ≡ head }
        ensures channels { ⟦<Lone<H> as Bank>⟧.channels result ≡ channel_of (H.Head.shape head) (H.Head.waiting head) ∷ [] }
    {
        Lone { head }
    }
}
