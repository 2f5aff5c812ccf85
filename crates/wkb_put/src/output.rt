// Bytes that are being laid down, one run behind the other, little-endian.
ghost use Rattle.std.specs.Prelude.{◌≡◌, [], ◌∷◌, ◌++◌, ◌+◌, ◌≤◌, length};
ghost use Rattle.laws.specs.Bytes.{le};
ghost use Rattle.nesting.specs.Machine.{number};
ghost use Rattle.wkb_written.specs.Spelling.{head_bytes, pair_of, begin_bytes};
ghost use Rattle.wkb_put.specs.Output.{Laid};

use nesting::GeometryType;
use numbers::{put_u32, put_u64};
use wkb_written::Around;

// The mark of little-endian numbers.
const LITTLE: u8 = 1;

// `at`: the place behind what was laid down.
#[derive(Drop)]
pub struct Output<'a> {
    bytes: &'a mut [u8],
    at: usize,
}

impl<'a> Output<'a> {
    pub fn new(bytes: &'a mut [u8]) -> Output<'a>
        ensures memory { result.bytes.ghost_name ≡ bytes.entry.ghost_name }
        ensures bytes { result.bytes.now ≡ bytes.old }
        ensures at { result.at ≡ 0 }
    {
        Output { bytes, at: 0 }
    }

    fn byte(&mut self, byte: u8)
        requires { self.old.at + 1 ≤ length self.old.bytes.now }
        ensures { Laid self.old self.new (byte ∷ []) }
    {
        self.bytes[self.at] = byte;
        self.at += 1;
    }

    fn word(&mut self, word: u32)
        requires { self.old.at + 4 ≤ length self.old.bytes.now }
        ensures { Laid self.old self.new (le 4 word) }
    {
        put_u32(self.bytes, self.at, word);
        self.at += 4;
    }

    fn double(&mut self, bits: u64)
        requires { self.old.at + 8 ≤ length self.old.bytes.now }
        ensures { Laid self.old self.new (le 8 bits) }
    {
        put_u64(self.bytes, self.at, bits);
        self.at += 8;
    }

    // An order mark and a type.
    fn head(&mut self, kind: GeometryType)
        requires { self.old.at + 5 ≤ length self.old.bytes.now }
        ensures { Laid self.old self.new (head_bytes (number kind)) }
    {
        self.byte(LITTLE);
        self.word(kind.number() as u32);
    }

    // A head and a count.
    fn counted(&mut self, kind: GeometryType, size: u32)
        requires { self.old.at + 9 ≤ length self.old.bytes.now }
        ensures { Laid self.old self.new (head_bytes (number kind) ++ le 4 size) }
    {
        self.head(kind);
        self.word(size);
    }

    pub fn begin(&mut self, around: Around, kind: GeometryType, tagged: bool, size: u32)
        requires { self.old.at + length (begin_bytes around kind tagged size) ≤ length self.old.bytes.now }
        ensures { Laid self.old self.new (begin_bytes around kind tagged size) }
    {
        match kind {
            GeometryType::Point => self.head(kind),
            GeometryType::LineString if around.rings & !tagged => self.word(size),
            _ => self.counted(kind, size),
        }
    }

    pub fn pair(&mut self, x: u64, y: u64)
        requires { self.old.at + 16 ≤ length self.old.bytes.now }
        ensures { Laid self.old self.new (pair_of x y) }
    {
        self.double(x);
        self.double(y);
    }

    // A pair with the head of a Point.
    pub fn point(&mut self, x: u64, y: u64)
        requires { self.old.at + 21 ≤ length self.old.bytes.now }
        ensures { Laid self.old self.new (head_bytes 1 ++ pair_of x y) }
    {
        self.head(GeometryType::Point);
        self.pair(x, y);
    }
}
