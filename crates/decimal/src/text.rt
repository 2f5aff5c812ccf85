// A decimal number as a person reads it.
ghost use Rattle.std.specs.Prelude.{◌≡◌, ◌++◌, ◌-◌, ◌%◌, ◌≤◌, length, drop, IsAscii, Some};
ghost use Rattle.std.specs.Fmt.{DisplaysOnOk};
ghost use Rattle.io.specs.Digits.{last_digits, hex_digit_ascii, IsDigitCount};
ghost use Rattle.decimal.specs.Text.{spelt, Spelt};

use crate::Decimal;
use std::{fmt, str};

#[derive(Clone, Copy, Debug, PartialEq, Eq)]
pub struct Signed {
    pub negative: bool,
    pub decimal: Decimal,
}

// A sign, twenty digits, the point and seven digits.
pub const TEXT_BYTES: usize = 29;

const POINT: usize = 21;

const BEHIND: usize = 22;

fn digit(n: u64) -> u8
    ensures { result ≡ hex_digit_ascii (n % 10) }
{
    48 + (n % 10) as u8
}

// Lays the last digits of n down from `from` to `end`.
fn lay(text: &mut [u8], n: u64, from: usize, end: usize)
    requires { (from ≤ end) × (end ≤ length text.old) }
    ensures { drop from text.new ≡ last_digits 10 (end - from) n ++ drop end text.old }
{
    let mut i = end;
    let mut rest = n;
    while i > from {
        i -= 1;
        text[i] = digit(rest);
        rest /= 10;
    }
}

// How many digits a number has.
fn places(n: u64) -> usize
    ensures { (IsDigitCount 10 1 n result) × (result ≤ 20) }
{
    let mut digits = [0u8; 20];
    io::decimal(n, &mut digits)
}

// The text stands at the end of `text`, from the answered place on.
pub fn spell(negative: bool, d: Decimal, text: &mut [u8; TEXT_BYTES]) -> usize
    ensures { (result ≤ 21) × (length text.new ≡ 29) × Spelt negative d (drop result text.new) }
{
    let before = POINT - places(d.whole);
    lay(text, d.fraction, BEHIND, TEXT_BYTES);
    text[POINT] = b'.';
    lay(text, d.whole, before, POINT);
    if negative {
        text[before - 1] = b'-';
        return before - 1;
    }
    before
}

// ASCII is text as it stands.
fn in_ascii(bytes: &[u8]) -> &str
    requires { IsAscii bytes.now }
    ensures { result.now ≡ bytes.now }
{
    match str::from_utf8(bytes) {
        Ok(text) => text,
        Err(_) => "",
    }
}

// What is displayed is what was spelt.
fn write_signed<W: fmt::Write>(n: Signed, f: &mut fmt::Formatter<W>) -> fmt::Result
    ensures writes { DisplaysOnOk W.write_str_gives f.old result (Some (spelt n.negative n.decimal)) f.new }
    ensures reads { Spelt n.negative n.decimal (spelt n.negative n.decimal) }
{
    let mut text = [0u8; TEXT_BYTES];
    let start = spell(n.negative, n.decimal, &mut text);
    f.write_str(in_ascii(&text[start..]))
}

impl fmt::Display for Signed {
    ghost output = { λ n. Some (spelt n.negative n.decimal) };

    fn fmt<W: fmt::Write>(&self, f: &mut fmt::Formatter<W>) -> fmt::Result {
        write_signed(*self, f)
    }
}
