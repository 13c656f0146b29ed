// The segments of a padded EPATH, and what an open reads of them. A path is lent bytes, at most 510 of them; a link or
// configuration data is a place in these bytes, never a copy. Bytes that are no path are answered with the offset of the
// first segment that does not parse or runs past the end.
#![tactic(auto)]

ghost use Rattle.std.specs.Prelude.{◌≡◌, ◌/◌, []};
ghost use Rattle.wire_rules.specs.ConnectionPath.{connection_path, path_of};
ghost use Rattle.wire_paths.specs.Adding.{with_number, added};

use wire_rules::{ConnectionPath, Seg, SegStep};
use wire_segments::next_segment;

// A function and no `Default`: the type is `wire_rules`'.
fn nothing_read() -> ConnectionPath
    ensures { result ≡ connection_path [] }
{
    ConnectionPath {
        barred: false,
        key: None,
        class: None,
        count: 0,
        first: 0,
        second: 0,
        third: 0,
        datastart: 0,
        datalen: 0,
    }
}

// In place, like `add_segment`: a struct made anew from the old one was tried, and each segment cost the copy.
fn add_number(mut held: ConnectionPath, value: u32) -> ConnectionPath
    ensures { result ≡ with_number held value }
{
    match held.count {
        0 => {
            held.first = value;
            held.count = 1;
        }
        1 => {
            held.second = value;
            held.count = 2;
        }
        2 => {
            held.third = value;
            held.count = 3;
        }
        _ => held.count = 4,
    }
    held
}

fn add_segment(mut held: ConnectionPath, seg: Seg) -> ConnectionPath
    ensures { result ≡ added held seg }
{
    match seg {
        Seg::Port { .. } | Seg::Attribute(_) => held.barred = true,
        Seg::Class(value) => held.class = Some(value),
        Seg::Instance(value) | Seg::Point(value) => return add_number(held, value),
        Seg::Keyed(key) => held.key = Some(key),
        Seg::Data { start, len } => {
            held.datastart = start;
            held.datalen = len;
        }
    }
    held
}

// What an open reads of a path, or the offset where the path does not parse. A `loop` and no iterator: each of the reader's three answers is one arm.
#[tactic(auto, using(crate::proofs::HeldLaws::held_none, crate::proofs::HeldLaws::held_more, wire_segments::specs::PathLaws::segment_found))]
pub fn parse_path(path: &[u8]) -> Result<ConnectionPath, usize>
    ensures { result ≡ path_of path.now }
{
    let mut held = nothing_read();
    let mut at = 0;
    loop {
        match next_segment(path, at) {
            SegStep::Segment { seg, next } => {
                held = add_segment(held, seg);
                at = next;
            }
            SegStep::End => return Ok(held),
            SegStep::Broken(offset) => return Err(offset),
        }
    }
}
