// The 64-byte geometry record.
ghost use Rattle.std.specs.Prelude.{◌≡◌, ◌+◌, ◌≤◌, ◌<◌, length};
ghost use Rattle.std.proofs.lemmas.List.Edits.{sets};
ghost use Rattle.geometry_layout.specs.Geometry.{head_bytes, present_of, shown, span_bytes, geometry_bytes, span_at, absent_zero, sound_geometry, geometry_of, read_geometry};
ghost use Rattle.geometry_layout.specs.Lone.{is_lone, lone_in};

use crate::place::{ENDS, M, PARTS, Place, T, TM, XY, Z};
use kinds::event::bit_set;
use kinds::geometry::{Geometry, Stretch};
use numbers::{put_u32, u32_at, u64_at};

// Of an absent list both are 0.
fn put_list(bytes: &mut [u8], place: Place, list: Option<Stretch>)
    requires { length bytes.old ≡ 64 }
    ensures { bytes.new ≡ sets bytes.old place.at (span_bytes list) }
{
    let stretch = list.unwrap_or(Stretch { start: 0, count: 0 });
    put_u32(bytes, place.at, stretch.start);
    put_u32(bytes, place.at + 4, stretch.count);
}

fn shown_as(list: Option<Stretch>, place: Place) -> u8
    ensures is { result ≡ shown list place.bit }
    ensures small { result ≤ place.bit }
{
    if list.is_some() { place.bit } else { 0 }
}

fn present_of(g: Geometry) -> u8
    ensures { result ≡ present_of g }
{
    shown_as(g.xy, XY)
        + shown_as(g.ends, ENDS)
        + shown_as(g.z, Z)
        + shown_as(g.m, M)
        + shown_as(g.t, T)
        + shown_as(g.tm, TM)
        + shown_as(g.parts, PARTS)
}

fn put_head(s: &mut [u8], kind: u8, present: u8)
    requires { 4 ≤ length s.old }
    ensures { s.new ≡ sets s.old 0 (head_bytes kind present) }
{
    s[0] = kind;
    s[1] = present;
    s[2] = 0;
    s[3] = 0;
}

pub fn put_geometry(bytes: &mut [u8], g: Geometry)
    requires { length bytes.old ≡ 64 }
    ensures { bytes.new ≡ geometry_bytes g }
{
    put_head(bytes, g.kind, present_of(g));
    put_list(bytes, XY, g.xy);
    put_list(bytes, ENDS, g.ends);
    put_list(bytes, Z, g.z);
    put_list(bytes, M, g.m);
    put_list(bytes, T, g.t);
    put_list(bytes, TM, g.tm);
    put_list(bytes, PARTS, g.parts);
    put_u32(bytes, 60, 0);
}

fn list_at(bytes: &[u8], place: Place) -> Option<Stretch>
    requires { length bytes.now ≡ 64 }
    ensures { result ≡ span_at bytes.now place.bit place.at }
{
    if bit_set(bytes[1], place.bit) {
        Some(Stretch {
            start: u32_at(bytes, place.at),
            count: u32_at(bytes, place.at + 4),
        })
    } else {
        None
    }
}

fn geometry_of(bytes: &[u8]) -> Geometry
    requires { length bytes.now ≡ 64 }
    ensures { result ≡ geometry_of bytes.now }
{
    Geometry {
        kind: bytes[0],
        xy: list_at(bytes, XY),
        ends: list_at(bytes, ENDS),
        z: list_at(bytes, Z),
        m: list_at(bytes, M),
        t: list_at(bytes, T),
        tm: list_at(bytes, TM),
        parts: list_at(bytes, PARTS),
    }
}

fn absent_zero(bytes: &[u8], place: Place) -> bool
    requires { length bytes.now ≡ 64 }
    ensures { result ≡ absent_zero bytes.now place.bit place.at }
{
    let at = place.at;
    bit_set(bytes[1], place.bit) | ((u32_at(bytes, at) == 0) & (u32_at(bytes, at + 4) == 0))
}

// One conjunction of all tests, which makes no branch.
fn sound_geometry(bytes: &[u8]) -> bool
    requires { length bytes.now ≡ 64 }
    ensures { result ≡ sound_geometry bytes.now }
{
    (bytes[2] == 0)
        & (bytes[3] == 0)
        & (u32_at(bytes, 60) == 0)
        & (bytes[1] < 128)
        & absent_zero(bytes, XY)
        & absent_zero(bytes, ENDS)
        & absent_zero(bytes, Z)
        & absent_zero(bytes, M)
        & absent_zero(bytes, T)
        & absent_zero(bytes, TM)
        & absent_zero(bytes, PARTS)
}

pub fn read_geometry(bytes: &[u8]) -> Option<Geometry>
    ensures { result ≡ read_geometry bytes.now }
{
    if bytes.len() != 64 {
        return None;
    }
    if sound_geometry(bytes) {
        Some(geometry_of(bytes))
    } else {
        None
    }
}

fn is_lone(bytes: &[u8]) -> bool
    requires { length bytes.now ≡ 64 }
    ensures { result ≡ is_lone bytes.now }
{
    (bytes[1] == 1)
        & (bytes[2] == 0)
        & (bytes[3] == 0)
        & (u64_at(bytes, 12) == 0)
        & (u64_at(bytes, 20) == 0)
        & (u64_at(bytes, 28) == 0)
        & (u64_at(bytes, 36) == 0)
        & (u64_at(bytes, 44) == 0)
        & (u64_at(bytes, 52) == 0)
        & (u32_at(bytes, 60) == 0)
}

// The list of a record that has an xy list and no other: what read_geometry says of most parts, in a dozen loads.
pub fn lone_list(bytes: &[u8]) -> Option<Stretch>
    requires { length bytes.now ≡ 64 }
    ensures { result ≡ lone_in bytes.now }
{
    if is_lone(bytes) {
        Some(Stretch {
            start: u32_at(bytes, 4),
            count: u32_at(bytes, 8),
        })
    } else {
        None
    }
}
