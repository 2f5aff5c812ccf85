// The two byte orders, and the numbers of a field in either.
ghost use Rattle.std.specs.Prelude.{◌≡◌, ◌+◌, ◌≤◌, length};
ghost use Rattle.wkb.specs.Order.{big_at, value_at};
ghost use Rattle.wkb.specs.Wkb.{MarkedBy};

// How a geometry's numbers lie in bytes.
#[derive(Clone, Copy, Debug, PartialEq, Eq)]
pub enum Order {
    // XDR: the highest byte first.
    Big,
    // NDR: the lowest byte first.
    Little,
}

impl Order {
    // The order that a mark in the bytes names, if any.
    pub fn of(mark: u8) -> Option<Order>
        ensures { MarkedBy mark result }
    {
        match mark {
            0 => Some(Order::Big),
            1 => Some(Order::Little),
            _ => None,
        }
    }
}

fn u32_big_at(s: &[u8], at: usize) -> u32
    requires { at + 4 ≤ length s.now }
    ensures { result ≡ big_at 4 s.now at }
{
    u32::from_be_bytes([s[at], s[at + 1], s[at + 2], s[at + 3]])
}

fn u64_big_at(s: &[u8], at: usize) -> u64
    requires { at + 8 ≤ length s.now }
    ensures { result ≡ big_at 8 s.now at }
{
    u64::from_be_bytes([
        s[at],
        s[at + 1],
        s[at + 2],
        s[at + 3],
        s[at + 4],
        s[at + 5],
        s[at + 6],
        s[at + 7],
    ])
}

pub fn u32_at(s: &[u8], at: usize, order: Order) -> u32
    requires { at + 4 ≤ length s.now }
    ensures { result ≡ value_at order 4 s.now at }
{
    match order {
        Order::Big => u32_big_at(s, at),
        Order::Little => numbers::u32_at(s, at),
    }
}

pub fn u64_at(s: &[u8], at: usize, order: Order) -> u64
    requires { at + 8 ≤ length s.now }
    ensures { result ≡ value_at order 8 s.now at }
{
    match order {
        Order::Big => u64_big_at(s, at),
        Order::Little => numbers::u64_at(s, at),
    }
}
