// The usable room of property bytes, written and read.
ghost use Rattle.std.specs.Prelude.{◌≡◌, min};

use kinds::usable;

pub fn usable_length(lent: usize) -> usize
    ensures { result ≡ min lent 65536 }
{
    lent.min(usable::PROPERTY_BYTES)
}
