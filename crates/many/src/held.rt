// The number that a call's events are to have.
ghost use Rattle.std.specs.Prelude.{◌≡◌};
ghost use Rattle.many.specs.Held.{held_by};

// That of the feature in hand or, where none is, that of the first record; 0 where there is no whole record.
pub fn held_by(feature: Option<u32>, bytes: &[u8]) -> u32
    ensures { result ≡ held_by feature bytes.now }
{
    match feature {
        Some(n) => n,
        None if bytes.len() < 64 => 0,
        None => event_log::feature_in(&bytes[..64]),
    }
}
