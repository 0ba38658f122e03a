// How an encoder track is made.
ghost use Rattle.std.specs.Prelude.{◌≡◌};
ghost use Rattle.heads.specs.Channels.{channel_of};
ghost use Rattle.heads.specs.EncoderTracks.{track_channel};

use super::EncoderTrack;
use crate::Head;

impl EncoderTrack {
    /// All of its readings wait.
    pub fn new(modulus: u32, start: u32, step: u32, grain: u32, count: u32) -> EncoderTrack
        ensures means { channel_of (⟦<EncoderTrack as Head>⟧.shape result) (⟦<EncoderTrack as Head>⟧.waiting result) ≡ track_channel modulus start step grain count 0 }
        ensures modulus { result.modulus ≡ modulus }
        ensures start { result.start ≡ start }
        ensures step { result.step ≡ step }
        ensures grain { result.grain ≡ grain }
        ensures count { result.count ≡ count }
        ensures taken { result.taken ≡ 0 }
    {
        EncoderTrack {
            modulus,
            start,
            step,
            grain,
            count,
            taken: 0,
        }
    }
}
