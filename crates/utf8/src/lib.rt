// UTF-8 as RFC 3629 has it.
#![tactic(auto)]

ghost use Rattle.std.specs.Prelude.{◌≡◌, ◌≤◌, ◌<◌, ◌+◌, length, drop};
ghost use Rattle.utf8.specs.Utf8.{◌‥◌, has, tail, tails, second, row_of, begins, char_length, BadIs, Counts};

// The place of the first byte that begins no well-formed character, if there is one.
// Most bytes are ASCII, and go by one test.
pub fn first_bad(bytes: &[u8]) -> Option<usize>
    ensures { BadIs bytes.now result }
{
    let mut at = 0;
    // A step is as long as its character, so that no iterator counts it.
    while at < bytes.len() {
        if bytes[at] < 0x80 {
            at += 1;
        } else {
            match char_length(bytes, at) {
                Some(len) => at += len,
                None => return Some(at),
            }
        }
    }
    None
}

// How many bytes the character at a place has, if one begins there.
fn char_length(bytes: &[u8], at: usize) -> Option<usize>
    requires { at < length bytes.now }
    ensures { Counts (char_length (drop at bytes.now)) result }
{
    let lead = bytes[at];
    let len = row_length(lead)?;
    if len == 1 {
        return Some(len);
    }
    if bytes.len() - at < len {
        return None;
    }
    if !second_fits(lead, bytes[at + 1]) {
        return None;
    }
    if !tails_fit(bytes, at + 2, len - 2) {
        return None;
    }
    Some(len)
}

// How many bytes a character has that begins with this byte, if one does.
fn row_length(lead: u8) -> Option<usize>
    ensures { Counts (length (row_of lead)) result }
{
    match lead {
        0x00..=0x7f => Some(1),
        0xc2..=0xdf => Some(2),
        0xe0..=0xef => Some(3),
        0xf0..=0xf4 => Some(4),
        _ => None,
    }
}

// Whether the second byte may stand after the first: four rows narrow its range.
fn second_fits(lead: u8, b: u8) -> bool
    ensures { result ≡ has (second (row_of lead)) b }
{
    match lead {
        0xe0 => in_range(b, 0xa0, 0xbf),
        0xed => in_range(b, 0x80, 0x9f),
        0xf0 => in_range(b, 0x90, 0xbf),
        0xf4 => in_range(b, 0x80, 0x8f),
        _ => is_tail(b),
    }
}

// Whether `count` tails stand from a place on: no row has more than two after its second byte.
fn tails_fit(bytes: &[u8], from: usize, count: usize) -> bool
    requires { (count ≤ 2) × (from + count ≤ length bytes.now) }
    ensures { result ≡ begins (tails count) (drop from bytes.now) }
{
    if count == 0 {
        return true;
    }
    if !is_tail(bytes[from]) {
        return false;
    }
    if count == 1 {
        return true;
    }
    is_tail(bytes[from + 1])
}

fn is_tail(b: u8) -> bool
    ensures { result ≡ has tail b }
{
    in_range(b, 0x80, 0xbf)
}

fn in_range(b: u8, low: u8, high: u8) -> bool
    ensures { result ≡ has (low ‥ high) b }
{
    (low <= b) & (b <= high)
}
