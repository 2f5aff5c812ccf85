// Which feature the events are of.
ghost use Rattle.std.specs.Prelude.{◌≡◌};
ghost use Rattle.writing.specs.Feature.{belongs};

// Whether an event of number n belongs to the feature in hand: where none is, one of any number does.
pub fn belongs(feature: Option<u32>, n: u32) -> bool
    ensures { result ≡ belongs feature n }
{
    match feature {
        None => true,
        Some(held) => n == held,
    }
}
