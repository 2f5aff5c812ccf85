// A mantissa and an exponent as a decimal number.
ghost use Rattle.std.specs.Prelude.{◌≡◌, ◌+◌, ◌*◌, ◌-◌, ◌≤◌, ◌<◌, ◌^◌};
ghost use Rattle.decimal.specs.Rounding.{half_to_even};
ghost use Rattle.decimal.specs.Magnitude.{ten_millionths, cut, told};
ghost use Rattle.decimal.specs.FiniteLaws.{Held};

use crate::fraction::ten_millionths;
use crate::{Decimal, Magnitude, ONE};

// Rounding up may fill the seven digits.
fn carried(whole: u64, fraction: u64) -> Decimal
    requires { (whole < 2 ^ 63) × (fraction ≤ 10000000) }
    ensures { result ≡ cut (whole * 10000000 + fraction) }
{
    if fraction < ONE {
        return Decimal { whole, fraction };
    }
    Decimal {
        whole: whole + 1,
        fraction: 0,
    }
}

// A mantissa with so many of its bits behind the point.
fn with_point(mantissa: u64, bits: u64) -> Decimal
    requires { (0 < bits) × (mantissa < 2 ^ 63) }
    ensures { result ≡ cut (half_to_even (mantissa * 10000000) (2 ^ bits)) }
{
    if bits < 64 {
        return carried(
            mantissa >> bits,
            ten_millionths(mantissa << (64 - bits), 64),
        );
    }
    carried(0, ten_millionths(mantissa, bits))
}

// A mantissa is whole at the exponent `point`. From there it goes up by `most` bits within a word, and out of it by more.
pub fn finite(mantissa: u64, exponent: u64, point: u64, most: u64) -> Magnitude
    requires { Held mantissa exponent point most }
    ensures { result ≡ told (ten_millionths point mantissa exponent) }
{
    if exponent < point {
        return Magnitude::Finite(with_point(mantissa, point - exponent));
    }
    let up = exponent - point;
    if up > most {
        return Magnitude::Vast;
    }
    Magnitude::Finite(Decimal {
        whole: mantissa << up,
        fraction: 0,
    })
}
