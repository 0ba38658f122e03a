// The setting itself; every value of it passed every check.
ghost use Rattle.std.specs.Prelude.{◌≡◌, ◌≤◌, take};
ghost use Rattle.settings.specs.Kept.{InversesBelow, InversesInvert, Moduli};
ghost use Rattle.settings.specs.Settings.{Accepted, Accepted-prop, range_of};

/// A unit with 1 to 8 factors that passed every check. It keeps what each
/// unfolding needs: the moduli, the range, and in row k of `inverses` the
/// inverse of each earlier factor modulo factor k, which only factors that
/// share no divisor have.
#[derive(Clone, Copy)]
pub struct Setting {
    pub(crate) unit: u32,
    // One count for the three tables: they are fixed memory, without a heap, and a setting is copied.
    pub(crate) count: usize,
    pub(crate) factors: [u32; 8],
    pub(crate) moduli: [u32; 8],
    pub(crate) inverses: [[u32; 8]; 8],
    pub(crate) range: u64,
    ghost few: { count ≤ 8 },
    ghost accepted: { Accepted unit (take count factors) } by { Accepted-prop unit (take count factors) },
    ghost moduli_are: { Moduli unit count factors moduli },
    ghost inverses_below: { InversesBelow count factors inverses },
    ghost inverses_invert: { InversesInvert count factors inverses },
    ghost range_is: { range ≡ range_of unit (take count factors) },
}
