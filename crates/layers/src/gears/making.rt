// How a gear is made.
ghost use Rattle.std.specs.Prelude.{◌≡◌};
ghost use Rattle.heads.specs.Channels.{channel_of};
ghost use Rattle.heads.specs.Standing.{Carried};
ghost use Rattle.layers.specs.Carrying.{GearCarries, gear_over};

use super::Gear;
use heads::Head;

impl<H: Head> Gear<H> {
    /// It means the gear over what the head below means, and stands where a gear carries.
    pub fn new(below: H, scale: u32, slack: u32) -> Gear<H>
        ensures means { channel_of (⟦<Gear<H> as Head>⟧.shape result) (⟦<Gear<H> as Head>⟧.waiting result) ≡ gear_over scale slack (channel_of (H.Head.shape below) (H.Head.waiting below)) }
        ensures stands { Carried (channel_of (H.Head.shape below) (H.Head.waiting below)) (channel_of (⟦<Gear<H> as Head>⟧.shape result) (⟦<Gear<H> as Head>⟧.waiting result)) (GearCarries scale slack) }
        ensures below { result.below ≡ below }
        ensures scale { result.scale ≡ scale }
        ensures slack { result.slack ≡ slack }
    {
        Gear {
            below,
            scale,
            slack,
        }
    }
}
