// Boxes over words that are doubles as bit patterns.
#![tactic(auto)]

mod edges;

ghost use Rattle.std.specs.Prelude.{◌≡◌};
ghost use Rattle.std.specs.Float.{binary64};
ghost use Rattle.std.specs.Float.Ieee.{nan_bits};
ghost use Rattle.bbox.specs.Box.{least, greatest, moved, beginning, double, widen, box_from, bits_of};

pub use edges::edges_of;

#[derive(Clone, Copy)]
pub struct Box {
    pub least_x: f64,
    pub least_y: f64,
    pub greatest_x: f64,
    pub greatest_y: f64,
}

// Without its sign bit, a NaN's pattern is above infinity's.
fn is_nan(word: u64) -> bool
    ensures { result ≡ nan_bits binary64 word }
{
    0x7ff0_0000_0000_0000 < word % 0x8000_0000_0000_0000
}

// A NaN is made by a division, since `from_bits` takes no NaN's pattern.
fn double_of(word: u64) -> f64
    ensures { result ≡ double word }
{
    if is_nan(word) {
        return 0.0 / 0.0;
    }
    f64::from_bits(word)
}

fn lowered(edge: f64, value: f64) -> f64
    ensures { result ≡ moved least edge value }
{
    if value < edge { value } else { edge }
}

fn raised(edge: f64, value: f64) -> f64
    ensures { result ≡ moved greatest edge value }
{
    if value > edge { value } else { edge }
}

impl Box {
    // Every edge begins where each number is beyond it.
    pub fn empty() -> Self
        ensures { result ≡ beginning }
    {
        Self {
            least_x: f64::INFINITY,
            least_y: f64::INFINITY,
            greatest_x: f64::NEG_INFINITY,
            greatest_y: f64::NEG_INFINITY,
        }
    }

    pub fn widened(self, x: u64, y: u64) -> Self
        ensures { result ≡ widen self x y }
    {
        let value_x = double_of(x);
        let value_y = double_of(y);
        Self {
            least_x: lowered(self.least_x, value_x),
            least_y: lowered(self.least_y, value_y),
            greatest_x: raised(self.greatest_x, value_x),
            greatest_y: raised(self.greatest_y, value_y),
        }
    }

    // By a list's pairs; a last word without a partner is left out.
    pub fn widened_by(self, words: &[u64]) -> Self
        ensures { result ≡ box_from self words.now }
    {
        let (pairs, _) = words.as_chunks::<2>();
        let mut around = self;
        for &[x, y] in pairs {
            around = around.widened(x, y);
        }
        around
    }
}

// Only a NaN differs from itself, and `to_bits` takes none.
pub fn edge_bits(edge: f64) -> u64
    ensures { result ≡ bits_of edge }
{
    if edge == edge {
        return f64::to_bits(edge);
    }
    0x7ff8_0000_0000_0000
}
