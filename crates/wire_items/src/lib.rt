// The items of a frame (rules 3.2 to 3.11): a 16-bit count, then kind, size, bytes; the last must end with the data. A list that
// is not well formed has an offset: that of the first item or count that does not fit, or of the first spare byte after the last item.
#![tactic(auto)]

ghost use Rattle.std.specs.Prelude.{◌≡◌, ◌↔◌, ℕ, ◌+◌, ◌≤◌, ◌<◌, IsTrue, length};
ghost use Rattle.base_cells.specs.Numbers.{le};
ghost use Rattle.wire_rules.specs.Items.{start_of, step_at, items_from, items_of, whole_of};
ghost use Rattle.wire_rules.specs.Frames.{io_of};
ghost use Rattle.wire_items.specs.Head.{Head, other_of};

use base_ids::OtId;
use wire_rules::{Cursor, IoFrame, Step};

// A 16-bit number as a size or a count.
fn size_at(s: &[u8], at: usize) -> usize
    requires { at + 2 ≤ length s.now }
    ensures { (result ≡ le 2 s.now at) × (result < 65536) }
{
    usize::from(base_cells::u16_at(s, at))
}

// The cursor at the first item.
#[tactic(auto, unfolding(wire_rules::specs::Items::start_of))]
pub fn begin(s: &[u8]) -> Result<Cursor, usize>
    ensures { result ≡ start_of s.now }
{
    if s.len() < 2 {
        return Err(0);
    }
    Ok(Cursor {
        at: 2,
        left: size_at(s, 0),
    })
}

// The same, by the numbers of a cursor.
#[tactic(auto, unfolding(wire_rules::specs::Items::step_at))]
pub fn step_at(s: &[u8], at: usize, left: usize) -> Step
    ensures { result ≡ step_at s.now at left }
{
    if left == 0 {
        return if at == s.len() {
            Step::End
        } else {
            Step::Broken(at)
        };
    }
    if s.len() < at || s.len() - at < 4 {
        return Step::Broken(at);
    }
    let len = size_at(s, at + 2);
    if s.len() - at - 4 < len {
        return Step::Broken(at);
    }
    Step::Item {
        kind: base_cells::u16_at(s, at),
        start: at + 4,
        len,
        next: Cursor {
            at: at + 4 + len,
            left: left - 1,
        },
    }
}

// Whether `count` items from a place on are well formed and end with the data, or where they break.
#[tactic(auto, using(crate::proofs::ItemLaws::goes, crate::proofs::ItemLaws::fewer, crate::proofs::ItemLaws::ends, crate::proofs::ItemLaws::stops))]
fn whole_from(s: &[u8], from: usize, count: usize) -> Result<(), usize>
    ensures { result ≡ whole_of (items_from count s.now from) }
{
    let mut at = from;
    let mut left = count;
    loop {
        match step_at(s, at, left) {
            Step::Item { next, .. } => Cursor { at, left } = next,
            Step::End => return Ok(()),
            Step::Broken(o) => return Err(o),
        }
    }
}

// Whether the data is a well-formed list, or where it breaks.
#[tactic(auto, unfolding(wire_rules::specs::Items::items_of))]
pub fn check_items(s: &[u8]) -> Result<(), usize>
    ensures { result ≡ whole_of (items_of s.now) }
{
    let c = begin(s)?;
    whole_from(s, c.at, c.left)
}

// Whether the first two items stand where an I/O frame has them.
fn io_head(s: &[u8]) -> bool
    ensures { IsTrue result ↔ Head s.now }
{
    s.len() >= 18
        && size_at(s, 0) >= 2
        && base_cells::u16_at(s, 2) == 0x8002
        && base_cells::u16_at(s, 4) == 8
        && base_cells::u16_at(s, 14) == 0xB1
}

// A frame with that head: only its third and later items are walked.
#[tactic(auto, using(crate::proofs::IoLaws::second_short, crate::proofs::IoLaws::later_broken, crate::proofs::IoLaws::over_size, crate::proofs::IoLaws::is_io))]
fn from_head(s: &[u8]) -> IoFrame
    requires { Head s.now }
    ensures { result ≡ io_of s.now }
{
    let len = size_at(s, 16);
    if s.len() - 18 < len {
        return IoFrame::Broken(14);
    }
    match whole_from(s, 18 + len, size_at(s, 0) - 2) {
        Err(o) => IoFrame::Broken(o),
        Ok(()) if 65536 < s.len() => IoFrame::NotIo,
        Ok(()) => IoFrame::Io {
            id: OtId(base_cells::u32_at(s, 6)),
            sequence: base_cells::u32_at(s, 10),
            start: 18,
            len,
        },
    }
}

fn without_head(s: &[u8]) -> IoFrame
    ensures { result ≡ other_of (whole_of (items_of s.now)) }
{
    match check_items(s) {
        Ok(()) => IoFrame::NotIo,
        Err(o) => IoFrame::Broken(o),
    }
}

// The I/O frame that the data is: broken at an offset, then over size or not an I/O frame, then the id, the sequence and the payload.
#[tactic(auto, using(crate::proofs::IoLaws::other_io))]
pub fn decode_io(frame: &[u8]) -> IoFrame
    ensures { result ≡ io_of frame.now }
{
    if io_head(frame) {
        from_head(frame)
    } else {
        without_head(frame)
    }
}
