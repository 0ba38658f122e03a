// How a zero offset is made.
ghost use Rattle.std.specs.Prelude.{◌≡◌};
ghost use Rattle.heads.specs.Channels.{channel_of};
ghost use Rattle.heads.specs.Standing.{Carried};
ghost use Rattle.layers.specs.Carrying.{ZeroCarries, zero_over};

use super::Zero;
use heads::Head;

impl<H: Head> Zero<H> {
    /// It means the zero over what the head below means, and stands where a zero carries.
    pub fn new(below: H, zero: u32) -> Zero<H>
        ensures means { channel_of (⟦<Zero<H> as Head>⟧.shape result) (⟦<Zero<H> as Head>⟧.waiting result) ≡ zero_over zero (channel_of (H.Head.shape below) (H.Head.waiting below)) }
        ensures stands { Carried (channel_of (H.Head.shape below) (H.Head.waiting below)) (channel_of (⟦<Zero<H> as Head>⟧.shape result) (⟦<Zero<H> as Head>⟧.waiting result)) (ZeroCarries zero) }
        ensures below { result.below ≡ below }
        ensures zero { result.zero ≡ zero }
    {
        Zero { below, zero }
    }
}
