// Rows of bytes compared, and whether a feature came back as it was given.
#![tactic(auto)]

ghost use Rattle.std.specs.Prelude.{◌≡◌};
ghost use Rattle.compared.specs.Compared.{Exactly, Common, AsGiven};

use event_log::EVENT_BYTES;

// How many bytes two rows begin with in common.
pub fn common(a: &[u8], b: &[u8]) -> usize
    ensures { Common a.now b.now result }
{
    let end = a.len().min(b.len());
    for i in 0..end {
        if a[i] != b[i] {
            return i;
        }
    }
    end
}

pub fn same(a: &[u8], b: &[u8]) -> bool
    ensures { Exactly result (a.now ≡ b.now) }
{
    (a.len() == b.len()) & (common(a, b) == a.len())
}

// The first `events` records of `sent` were given, and the first `count` of `log` were read back.
pub fn comes_back(events: usize, count: usize, sent: &[u8], log: &[u8]) -> bool
    ensures { Exactly result (AsGiven events count sent.now log.now) }
{
    if count != events {
        return false;
    }
    if events > sent.len() / EVENT_BYTES {
        return false;
    }
    if events > log.len() / EVENT_BYTES {
        return false;
    }
    let end = EVENT_BYTES * events;
    same(&sent[..end], &log[..end])
}
