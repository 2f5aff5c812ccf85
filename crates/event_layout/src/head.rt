// How an event record begins, and two numbers side by side.
ghost use Rattle.std.specs.Prelude.{◌≡◌, ◌++◌, ◌+◌, ◌≤◌, length};
ghost use Rattle.std.proofs.lemmas.List.Edits.{sets};
ghost use Rattle.laws.specs.Bytes.{le};
ghost use Rattle.event_layout.specs.Head.{head_bytes};

use numbers::put_u64;

fn head_word(first: u8, second: u8, third: u8, v: u32) -> u64
    ensures { le 8 result ≡ head_bytes first second third ++ le 4 v }
{
    (first as u64) + 256 * (second as u64) + 65536 * (third as u64) + 4294967296 * (v as u64)
}

// A record's first four bytes and a number, laid down as one word.
pub fn put_first(s: &mut [u8], first: u8, second: u8, third: u8, v: u32)
    requires { 8 ≤ length s.old }
    ensures { s.new ≡ sets s.old 0 (head_bytes first second third ++ le 4 v) }
{
    put_u64(s, 0, head_word(first, second, third, v));
}

// Two numbers, laid down as one word.
pub fn put_two(s: &mut [u8], at: usize, v: u32, w: u32)
    requires { at + 8 ≤ length s.old }
    ensures { s.new ≡ sets s.old at (le 4 v ++ le 4 w) }
{
    put_u64(s, at, (v as u64) + 4294967296 * (w as u64));
}
