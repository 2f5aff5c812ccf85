// A fraction of a power of two, in ten-millionths.
ghost use Rattle.std.specs.Prelude.{◌≡◌, ◌&&◌, ◌||◌, ltb, eqb, ◌+◌, ◌*◌, ◌%◌, ◌≤◌, ◌<◌, ◌^◌};
ghost use Rattle.decimal.specs.Rounding.{half_to_even};

use crate::ONE;

const HALF_WORD: u64 = 4294967296;

const HALF: u64 = 0x8000_0000_0000_0000;

// A product with the ten millions, as `high` half words and one `low` half word.
#[derive(Clone, Copy)]
struct Product {
    high: u64,
    low: u64,
}

fn times_one(n: u64) -> Product
    ensures { (result.high * 4294967296 + result.low ≡ n * 10000000) × (result.low < 4294967296) × (result.high < 2 ^ 56) }
{
    let low = n % HALF_WORD * ONE;
    Product {
        high: n / HALF_WORD * ONE + low / HALF_WORD,
        low: low % HALF_WORD,
    }
}

// Whether a quotient goes up: `rest` is what was left of a word, and `more` whether anything is left below it.
fn goes_up(quotient: u64, rest: u64, more: bool) -> bool
    ensures { result ≡ (ltb (2 ^ 63) rest || (eqb rest (2 ^ 63) && (more || eqb (quotient % 2) 1))) }
{
    (HALF < rest) | ((rest == HALF) & (more | (quotient % 2 == 1)))
}

// n divided by 2 to the power `bits`.
pub fn ten_millionths(n: u64, bits: u64) -> u64
    requires { 64 ≤ bits }
    ensures { result ≡ half_to_even (n * 10000000) (2 ^ bits) }
{
    if bits > 95 {
        return 0;
    }
    let p = times_one(n);
    let quotient = p.high >> (bits - 32);
    let rest = p.high << (96 - bits);
    if goes_up(quotient, rest, p.low != 0) {
        quotient + 1
    } else {
        quotient
    }
}
