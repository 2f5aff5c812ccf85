// The 64-byte event record.
ghost use Rattle.std.specs.Prelude.{◌≡◌, true, length};
ghost use Rattle.std.proofs.lemmas.List.Edits.{sets};
ghost use Rattle.kinds.specs.Event.{told_apart, BareOf, is_event, OwnPair};
ghost use Rattle.event_layout.specs.Event.{bit, double_bytes, event_bytes, event_of, feature_of, spare_zero, read_event};

use crate::head::{put_first, put_two};
use kinds::event::{Event, Heard, Uses, Xy};
use numbers::{put_u64, u32_at, u64_at};

// What a pair's record begins with, as one number: its kind, and no other field.
const XY_HEAD: u64 = 64;

fn byte_of(on: bool) -> u8
    ensures { result ≡ bit on }
{
    u8::from(on)
}

fn put_doubles(bytes: &mut [u8], e: Event)
    requires { length bytes.old ≡ 64 }
    ensures { bytes.new ≡ sets bytes.old 16 (double_bytes e) }
{
    put_u64(bytes, 16, e.x);
    put_u64(bytes, 24, e.y);
    put_u64(bytes, 32, e.z);
    put_u64(bytes, 40, e.m);
    put_u64(bytes, 48, e.t);
    put_u64(bytes, 56, e.tm);
}

// Lays an event down, with the number of its feature.
pub fn put_event(bytes: &mut [u8], feature: u32, e: Event)
    requires { length bytes.old ≡ 64 }
    ensures { bytes.new ≡ event_bytes feature e }
{
    put_first(bytes, e.kind, byte_of(e.tagged), e.present, e.size);
    put_two(bytes, 8, e.idx, feature);
    put_doubles(bytes, e);
}

// The fields of a record, whether it is well-formed or not.
pub fn event_of(bytes: &[u8]) -> Event
    requires { length bytes.now ≡ 64 }
    ensures { result ≡ event_of bytes.now }
{
    Event {
        kind: bytes[0],
        tagged: bytes[1] == 1,
        present: bytes[2],
        size: u32_at(bytes, 4),
        idx: u32_at(bytes, 8),
        x: u64_at(bytes, 16),
        y: u64_at(bytes, 24),
        z: u64_at(bytes, 32),
        m: u64_at(bytes, 40),
        t: u64_at(bytes, 48),
        tm: u64_at(bytes, 56),
    }
}

// The number of the feature that a record is of.
pub fn feature_of(bytes: &[u8]) -> u32
    requires { length bytes.now ≡ 64 }
    ensures { result ≡ feature_of bytes.now }
{
    u32_at(bytes, 12)
}

fn spare_zero(bytes: &[u8]) -> bool
    requires { length bytes.now ≡ 64 }
    ensures { result ≡ spare_zero bytes.now }
{
    (bytes[1] <= 1) & (bytes[3] == 0)
}

// What a record's bytes are: a pair, a coordinate, a begin that sets no type, any other event, or malformed. Pairs are the
// commonest by far, then coordinates, so the kind is looked at first and those two are held to constants.
pub fn read_event(bytes: &[u8]) -> Heard
    ensures { result ≡ told_apart (read_event bytes.now) }
{
    if bytes.len() != 64 {
        return Heard::Malformed;
    }
    let e = event_of(bytes);
    if !spare_zero(bytes) {
        return Heard::Malformed;
    }
    let kind = e.kind;
    if kind == Event::XY {
        if e.keeps(Event::XY_USES) {
            return Heard::Pair { x: e.x, y: e.y };
        }
        return Heard::Malformed;
    }
    if Event::XY <= kind {
        if (kind == Event::COORDINATE) & e.keeps(Event::COORDINATE_USES) {
            return Heard::Coordinate(e);
        }
        return Heard::Malformed;
    }
    if e.keeps(Event::uses(kind)) {
        e.told_frame()
    } else {
        Heard::Malformed
    }
}

// The pair that bytes are if they are an xy event: what read_event says of it, short enough to stand in two places.
pub fn read_bare(bytes: &[u8]) -> Option<Xy>
    ensures { BareOf (read_event bytes.now) result }
{
    if bytes.len() != 64 {
        return None;
    }
    let e = event_of(bytes);
    if e.kind != Event::XY {
        return None;
    }
    if spare_zero(bytes) & e.keeps(Event::XY_USES) {
        Some(Xy { x: e.x, y: e.y })
    } else {
        None
    }
}

// Whether bytes are an event at all. Coordinates alone have present bits, so that for any other kind no value is asked about its bit.
pub fn is_event(bytes: &[u8]) -> bool
    ensures { result ≡ is_event (read_event bytes.now) }
{
    if bytes.len() != 64 {
        return false;
    }
    let e = event_of(bytes);
    let sound = spare_zero(bytes);
    if e.kind == Event::COORDINATE {
        return sound & e.keeps(Event::COORDINATE_USES);
    }
    let uses = Event::uses(e.kind);
    let plain = Uses {
        present: false,
        ..uses
    };
    sound & e.keeps(plain)
}

// Whether bytes are the xy event of a feature that has this index. The first sixteen bytes are held to two numbers, so that a row of pairs is
// told with few tests to each.
pub fn is_pair(bytes: &[u8], feature: u32, idx: u32) -> bool
    requires { length bytes.now ≡ 64 }
    ensures { result ≡ true → OwnPair (read_event bytes.now) (feature_of bytes.now) feature idx }
{
    let head = u64_at(bytes, 0);
    let numbers = u64_at(bytes, 8);
    let due = (idx as u64) + 4294967296 * (feature as u64);
    let e = event_of(bytes);
    (head == XY_HEAD) & (numbers == due) & (e.z == 0) & (e.m == 0) & (e.t == 0) & (e.tm == 0)
}
