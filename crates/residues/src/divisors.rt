// Euclid's method: the greatest common divisor, and the inverse beside it.
ghost use Rattle.std.specs.Prelude.{◌≡◌, ◌+◌, ◌-◌, ◌*◌, ◌%◌, ◌^◌, ◌<◌};
ghost use Rattle.residues.specs.Divisors.{Greatest};
ghost use Rattle.residues.specs.Euclid.{Runs, rest_of};

/// What one run of Euclid's method tells of `a` and `m`: their greatest common
/// divisor, and a number below `m` that `a` times is that divisor modulo `m`.
/// Where the divisor is 1, that number is the inverse of `a` modulo `m`.
#[derive(Clone, Copy, PartialEq, Eq, Debug)]
pub struct Shared {
    pub divisor: u32,
    pub cofactor: u32,
}

// `a` less `b` times `c`, modulo `m`.
fn less_product(a: u64, b: u64, c: u64, m: u64) -> u64
    requires below { a < m }
    requires factor { b < 2 ^ 32 }
    requires other_factor { c < m }
    requires modulus { m < 2 ^ 32 }
    ensures { result ≡ (a + (m - b * c % m)) % m }
{
    (a + (m - b * c % m)) % m
}

impl Shared {
    // What is left of `self`'s divisor when `next`'s is taken away as often as it fits.
    fn rest(self, next: Shared, m: u32) -> Shared
        requires divides { 0 < next.divisor }
        requires below { self.cofactor < m }
        requires next_below { next.cofactor < m }
        ensures { result ≡ rest_of m self next }
    {
        let quotient = self.divisor / next.divisor;
        let cofactor = less_product(
            u64::from(self.cofactor),
            u64::from(quotient),
            u64::from(next.cofactor),
            u64::from(m),
        );
        Shared {
            divisor: self.divisor % next.divisor,
            cofactor: cofactor as u32,
        }
    }
}

/// Runs Euclid's method on `m` and `a mod m`; none where `m` is 0.
pub fn euclid(a: u32, m: u32) -> Option<Shared>
    ensures { Runs a m result }
{
    if m == 0 {
        return None;
    }
    let mut last = Shared {
        divisor: m,
        cofactor: 0,
    };
    let mut next = Shared {
        divisor: a % m,
        cofactor: 1 % m,
    };
    while next.divisor != 0 {
        (last, next) = (next, last.rest(next, m));
    }
    Some(last)
}

/// The greatest common divisor; of 0 and `b` it is `b`.
pub fn gcd(a: u32, b: u32) -> u32
    ensures { Greatest a b result }
{
    euclid(a, b).map_or(a, |shared| shared.divisor)
}
