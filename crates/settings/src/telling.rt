// What a setting tells of itself.
ghost use Rattle.std.specs.Prelude.{◌≡◌, length};
ghost use Rattle.settings.specs.Settings.{Accepted, range_of};
ghost use Rattle.settings.specs.Told.{InversesTold, ModuliTold, factors_of, unit_of};

use crate::Setting;

impl Setting {
    /// The unit, which divides every modulus.
    pub fn unit(&self) -> u32
        ensures { result ≡ unit_of self.now }
    {
        self.unit
    }

    /// The number of channels.
    pub fn count(&self) -> usize
        ensures { result ≡ length (factors_of self.now) }
    {
        self.count
    }

    /// The factor of each channel. Every setting's unit and factors pass every check.
    pub fn factors(&self) -> &[u32]
        ensures told { result.now ≡ factors_of self.now }
        ensures accepted { Accepted (unit_of self.now) (factors_of self.now) }
    {
        &self.factors[..self.count]
    }

    /// The modulus of each channel: the unit times its factor.
    // Cut as the factors are: one function of both would be told the table and the count, and be no shorter.
    pub fn moduli(&self) -> &[u32]
        ensures { ModuliTold self.now result.now }
    {
        &self.moduli[..self.count]
    }

    /// How many positions there are: the unit times all factors.
    pub fn range(&self) -> u64
        ensures { result ≡ range_of (unit_of self.now) (factors_of self.now) }
    {
        self.range
    }

    /// The inverse of each earlier factor modulo this channel's; empty where there is no such channel.
    pub fn inverses(&self, channel: usize) -> &[u32]
        ensures { InversesTold self.now channel result.now }
    {
        if channel < self.count {
            &self.inverses[channel][..channel]
        } else {
            &[]
        }
    }
}
