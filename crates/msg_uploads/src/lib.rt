// The EDS upload: the checksum, the size that is agreed, what a transfer's number asks for, and its steps over the position.
#![tactic(auto)]

mod replies;
pub mod steps;

ghost use Rattle.std.specs.Prelude.{◌≡◌, ◌+◌, ◌≤◌, ◌<◌, ◌%◌, min, [], ◌∷◌, length};
ghost use Rattle.rules.specs.Upload.{checksum, clamped, turn_of};
ghost use Rattle.msg_uploads.specs.Steps.{advanced_to};

use rules::objects::{Position, Transfer, Turn};

// The negated 16-bit sum of bytes; the sum of 65,535 of them fits 32 bits.
pub fn checksum(bytes: &[u8]) -> u16
    requires { length bytes.now ≤ 65535 }
    ensures { result ≡ checksum bytes.now }
{
    let sum: u32 = bytes.iter().map(|b| *b as u32).sum();
    ((sum % 65536) as u16).wrapping_neg()
}

// The wanted size, clamped to 1 up to the transfer limit.
pub fn clamped(limit: u8, wanted: u8) -> u8
    ensures { result ≡ clamped limit wanted }
{
    wanted.min(limit).max(1)
}

// What a transfer's number asks for; a repeat is looked for first.
#[tactic(auto, using(std::proofs::lemmas::Bool::Decides::nat_tests), unfolding(rules::specs::Upload::turn_of))]
pub fn turn_of(p: Position, number: u8) -> Turn
    ensures { result ≡ turn_of p number }
{
    match p.last {
        Some(last) if last.number == number => Turn::Repeat(last.offset),
        _ if number == p.next => Turn::InTurn,
        _ => Turn::OutOfTurn,
    }
}

// The offset behind a transfer's bytes, at most the length of the EDS.
fn next_offset(offset: u16, size: u8, len: u16) -> u16
    ensures { result ≡ min (offset + size) len }
{
    ((offset as u32) + (size as u32)).min(len as u32) as u16
}

// The position after a transfer in turn, in an EDS of that length.
#[tactic(auto, unfolding(crate::specs::Steps::advanced_to))]
pub fn advanced(p: Position, len: u16) -> Position
    ensures { result ≡ advanced_to len p }
{
    Position {
        size: p.size,
        next: p.next.wrapping_add(1),
        offset: next_offset(p.offset, p.size, len),
        last: Some(Transfer {
            number: p.next,
            offset: p.offset,
        }),
    }
}
