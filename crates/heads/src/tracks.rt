// Encoder tracks: a head that works its readings out one by one.
ghost use Rattle.std.specs.Prelude.{◌≡◌, ◌<◌};
ghost use Rattle.heads.specs.EncoderTrackLaws.{track_laws};
ghost use Rattle.heads.specs.EncoderTracks.{track_fits, track_reading, track_told, track_waits};

mod making;

use crate::{Figures, Head, HeadFault, Plate, advance, fit_figures, fitness};

/// A track that is passed in even steps, read to a grain: `count` readings from `start` on.
#[derive(Clone, Copy)]
pub struct EncoderTrack {
    modulus: u32,
    start: u32,
    step: u32,
    grain: u32,
    count: u32,
    // A count, and no range of those that wait: a range is not `Copy`, and a track is.
    taken: usize,
}

impl EncoderTrack {
    // Whether the track's numbers are in their limits.
    fn is_fit(&self) -> bool
        ensures { result ≡ track_fits self.now.modulus self.now.start self.now.step self.now.grain self.now.count }
    {
        self.grain >= 1
            && fitness(self.modulus, self.grain - 1)
            && self.start < self.modulus
            && self.step < self.modulus
            && self.count <= 1048576
    }

    // Reading number `k`.
    fn reading_at(&self, k: u32) -> u32
        requires modulus { 0 < self.now.modulus }
        requires grain { 0 < self.now.grain }
        ensures { result ≡ track_reading self.now.modulus self.now.start self.now.step self.now.grain k }
    {
        let along = u64::from(self.start) + u64::from(k) * u64::from(self.step);
        let place = (along % u64::from(self.modulus)) as u32;
        place - place % self.grain
    }
}

impl Plate for EncoderTrack {
    ghost told = { λ s. track_told s.modulus s.start s.step s.grain s.count };

    fn figures(&self) -> Figures {
        Figures::told(self.is_fit(), self.modulus, self.grain.saturating_sub(1), 0)
    }
}

impl Head for EncoderTrack {
    ghost shape = { λ s. track_told s.modulus s.start s.step s.grain s.count };

    ghost waiting = { λ s. track_waits s.modulus s.start s.step s.grain s.count s.taken };

    ghost laws = { track_laws (λ s. s.modulus) (λ s. s.start) (λ s. s.step) (λ s. s.grain) (λ s. s.count) (λ s. s.taken) };

    fn head_figures(&self) -> Figures {
        self.figures()
    }

    fn read(&mut self) -> Result<u32, HeadFault> {
        fit_figures(self)?;
        let count = self.count as usize;
        let k = advance(&mut self.taken, count).ok_or(HeadFault::End)?;
        Ok(self.reading_at(k as u32))
    }
}
