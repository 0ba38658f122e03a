// The ends of a bracket before reduction, and the channels that give them.
ghost use Rattle.std.specs.Prelude.{◌≡◌, ◌≤◌, length, pos, ◌+ℤ◌, ◌-ℤ◌, ◌≤ℤ◌};
ghost use Rattle.unfolding.specs.Channels.{GreatestAt, LeastAt, Moderate, Small};
ghost use Rattle.unfolding.specs.Ends.{begins_at, ends_at};

/// An end, and the lowest channel that gives it.
#[derive(Clone, Copy)]
pub(crate) struct End {
    pub(crate) at: i64,
    pub(crate) channel: usize,
}

/// The greatest lower end and the least upper end: `lo` and `hi`.
#[derive(Clone, Copy)]
pub(crate) struct Ends {
    pub(crate) lo: End,
    pub(crate) hi: End,
    ghost lo_small: { Small lo.at },
    ghost hi_small: { Small hi.at },
}

impl Ends {
    /// The ends of what unfolded readings allow, each within its bound.
    pub(crate) fn of(unfolded: &[i64], bounds: &[u32]) -> Ends
        requires some { 1 ≤ length unfolded.now }
        requires paired { length bounds.now ≡ length unfolded.now }
        requires moderate { Moderate unfolded.now }
        ensures lo { GreatestAt (length unfolded.now) (begins_at unfolded.now bounds.now) result.lo.at result.lo.channel }
        ensures hi { LeastAt (length unfolded.now) (ends_at unfolded.now bounds.now) result.hi.at result.hi.channel }
    {
        let first = unfolded[0];
        let bound = i64::from(bounds[0]);
        let mut lo = End {
            at: first - bound,
            channel: 0,
        };
        let mut hi = End {
            at: first + bound,
            channel: 0,
        };
        for (channel, (&reading, &bound)) in unfolded.iter().zip(bounds).enumerate().skip(1) {
            let begins = reading - i64::from(bound);
            let reaches = reading + i64::from(bound);
            if begins > lo.at {
                lo = End {
                    at: begins,
                    channel,
                };
            }
            if reaches < hi.at {
                hi = End {
                    at: reaches,
                    channel,
                };
            }
        }
        Ends { lo, hi }
    }

    /// How many whole numbers there are from `lo` to `hi`.
    pub(crate) fn count(&self) -> u64
        requires { self.now.lo.at ≤ℤ self.now.hi.at }
        ensures { pos result ≡ self.now.hi.at -ℤ self.now.lo.at +ℤ pos 1 }
    {
        (self.hi.at - self.lo.at) as u64 + 1
    }

    /// By how much `lo` exceeds `hi`.
    pub(crate) fn excess(&self) -> u64
        requires { self.now.hi.at ≤ℤ self.now.lo.at }
        ensures { pos result ≡ self.now.lo.at -ℤ self.now.hi.at }
    {
        (self.lo.at - self.hi.at) as u64
    }
}
