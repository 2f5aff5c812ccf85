// A box as words.
ghost use Rattle.std.specs.Prelude.{◌≡◌};
ghost use Rattle.bbox.specs.Edges.{edges_of};

use crate::{Box, edge_bits};

// The bit patterns of least x, least y, greatest x and greatest y.
pub fn edges_of(around: Box) -> [u64; 4]
    ensures { result ≡ edges_of around }
{
    [
        edge_bits(around.least_x),
        edge_bits(around.least_y),
        edge_bits(around.greatest_x),
        edge_bits(around.greatest_y),
    ]
}
