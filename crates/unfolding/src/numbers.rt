// The division that the rules name: rounding down.
ghost use Rattle.std.specs.Prelude.{◌≡◌, pos, ◌<ℤ◌};
ghost use Rattle.std.specs.Int.{int_div_euclid};

/// The quotient rounded towards minus infinity.
pub(crate) fn floor(number: i64, divisor: i64) -> i64
    requires { pos 0 <ℤ divisor }
    ensures { result ≡ int_div_euclid number divisor }
{
    number.div_euclid(divisor)
}
