// The segments of a padded EPATH. A path is lent bytes, at most 510 of them; a link or data is a place in these bytes, never a copy. Bytes that are
// no segment are answered with their offset.
#![tactic(auto)]

ghost use Rattle.std.specs.Prelude.{◌≡◌, ◌+◌, ◌*◌, ◌/◌, ◌%◌, ◌≤◌, ◌<◌, length, get_or};
ghost use Rattle.wire_rules.specs.Segments.{port_offset, link_offset, link_size, port_of, port_at, logical_at, key_of, key_at, data_at, seg_at, step_at};
ghost use Rattle.wire_segments.specs.Logical.{named};

use base_cells::{u16_at, u32_at};
use std::cmp::Ordering;
use wire_rules::{Key, Seg, SegStep};

// A path has up to 510 bytes.
const PATH_MAX: usize = 510;

#[tactic(auto, unfolding(wire_rules::specs::Segments::port_offset))]
fn port_offset(first: u8) -> usize
    ensures { (result ≡ port_offset first) × (1 ≤ result) × (result ≤ 2) }
{
    if first / 16 == 1 { 2 } else { 1 }
}

#[tactic(auto, unfolding(wire_rules::specs::Segments::link_offset))]
fn link_offset(first: u8) -> usize
    ensures { (result ≡ link_offset first) × (1 ≤ result) × (result ≤ 4) }
{
    let port = port_offset(first);
    if first % 16 == 15 { port + 2 } else { port }
}

#[tactic(auto, unfolding(wire_rules::specs::Segments::link_size))]
fn link_size(first: u8, second: u8) -> usize
    ensures { (result ≡ link_size first second) × (result < 256) }
{
    if first / 16 == 1 {
        usize::from(second)
    } else {
        1
    }
}

#[tactic(auto, unfolding(wire_rules::specs::Segments::port_of, wire_rules::specs::Segments::link_offset))]
fn port_of(path: &[u8], at: usize) -> u16
    requires { (at < length path.now) × (at + link_offset (get_or path.now at 0) ≤ length path.now) }
    ensures { result ≡ port_of path.now at }
{
    let first = path[at];
    if first % 16 == 15 {
        u16_at(path, at + port_offset(first))
    } else {
        u16::from(first % 16)
    }
}

#[tactic(auto, using(crate::proofs::PortLaws::port_none), unfolding(wire_rules::specs::Segments::port_at))]
fn port_at(path: &[u8], at: usize) -> SegStep
    requires { at < length path.now }
    ensures { result ≡ port_at path.now at }
{
    let left = path.len() - at;
    if left < 2 {
        return SegStep::Broken(at);
    }
    let link = link_offset(path[at]);
    let len = link_size(path[at], path[at + 1]);
    let size = (link + len + 1) / 2 * 2;
    if left < size {
        return SegStep::Broken(at);
    }
    SegStep::Segment {
        seg: Seg::Port {
            port: port_of(path, at),
            start: at + link,
            len,
        },
        next: at + size,
    }
}

// The kinds of logical segment. An enum, since `logical_at` then ensures one equation: of a constructor that it was passed, as `Seg::Class`, a
// contract could say only what a call may give.
#[derive(Clone, Copy)]
enum Logical {
    Class,
    Instance,
    Point,
    Attribute,
}

fn named(kind: Logical, value: u32) -> Seg
    ensures { result ≡ named kind value }
{
    match kind {
        Logical::Class => Seg::Class(value),
        Logical::Instance => Seg::Instance(value),
        Logical::Point => Seg::Point(value),
        Logical::Attribute => Seg::Attribute(value),
    }
}

#[tactic(auto, unfolding(wire_rules::specs::Segments::logical_at))]
fn logical_at(path: &[u8], at: usize, kind: Logical) -> SegStep
    requires { at < length path.now }
    ensures { result ≡ logical_at path.now at (named kind) }
{
    let left = path.len() - at;
    match path[at] % 4 {
        0 if left >= 2 => SegStep::Segment {
            seg: named(kind, u32::from(path[at + 1])),
            next: at + 2,
        },
        1 if left >= 4 => SegStep::Segment {
            seg: named(kind, u32::from(u16_at(path, at + 2))),
            next: at + 4,
        },
        2.. if left >= 6 => SegStep::Segment {
            seg: named(kind, u32_at(path, at + 2)),
            next: at + 6,
        },
        _ => SegStep::Broken(at),
    }
}

#[tactic(auto, unfolding(wire_rules::specs::Segments::key_of))]
fn key_of(path: &[u8], at: usize) -> Key
    requires { at + 10 ≤ length path.now }
    ensures { result ≡ key_of path.now at }
{
    Key {
        vendor: u16_at(path, at + 2),
        device: u16_at(path, at + 4),
        product: u16_at(path, at + 6),
        major: path[at + 8],
        minor: path[at + 9],
    }
}

#[tactic(auto, unfolding(wire_rules::specs::Segments::key_at))]
fn key_at(path: &[u8], at: usize) -> SegStep
    requires { at < length path.now }
    ensures { result ≡ key_at path.now at }
{
    if path.len() - at < 10 || path[at + 1] != 4 {
        return SegStep::Broken(at);
    }
    SegStep::Segment {
        seg: Seg::Keyed(key_of(path, at)),
        next: at + 10,
    }
}

#[tactic(auto, unfolding(wire_rules::specs::Segments::data_at))]
fn data_at(path: &[u8], at: usize) -> SegStep
    requires { at < length path.now }
    ensures { result ≡ data_at path.now at }
{
    let left = path.len() - at;
    if left < 2 {
        return SegStep::Broken(at);
    }
    let len = usize::from(path[at + 1]) * 2;
    if left - 2 < len {
        return SegStep::Broken(at);
    }
    SegStep::Segment {
        seg: Seg::Data { start: at + 2, len },
        next: at + 2 + len,
    }
}

#[tactic(auto, unfolding(wire_rules::specs::Segments::seg_at, wire_rules::specs::Segments::between))]
fn seg_at(path: &[u8], at: usize) -> SegStep
    requires { at < length path.now }
    ensures { result ≡ seg_at path.now at }
{
    match path[at] {
        0x00..=0x1F => port_at(path, at),
        0x20..=0x22 => logical_at(path, at, Logical::Class),
        0x24..=0x26 => logical_at(path, at, Logical::Instance),
        0x2C..=0x2E => logical_at(path, at, Logical::Point),
        0x30..=0x32 => logical_at(path, at, Logical::Attribute),
        0x34 => key_at(path, at),
        0x80 => data_at(path, at),
        _ => SegStep::Broken(at),
    }
}

// What stands at a place of a path: the reader starts at 0 and goes on at each segment's end.
#[tactic(auto, unfolding(wire_rules::specs::Segments::step_at))]
pub fn next_segment(path: &[u8], at: usize) -> SegStep
    ensures { result ≡ step_at path.now at }
{
    if PATH_MAX < path.len() {
        return SegStep::Broken(PATH_MAX);
    }
    match at.cmp(&path.len()) {
        Ordering::Less => seg_at(path, at),
        Ordering::Equal => SegStep::End,
        Ordering::Greater => SegStep::Broken(at),
    }
}
