// An upload's position as lent bytes: read, written in one way, and tested.
#![tactic(auto)]

ghost use Rattle.std.specs.Prelude.{◌≡◌, ◌≤◌, length};
ghost use Rattle.base_cells.specs.Records.{dec_fields, put_fields};
ghost use Rattle.msg_positions.specs.Positions.{w_position, dec_position, dec_upload, list_upload, plain_list, fits, ok_with, upload_tested};

use rules::objects::{Position, Transfer};

#[tactic(auto, using(std::proofs::lemmas::Bool::Decides::nat_tests), unfolding(crate::specs::Positions::dec_position))]
fn position_of(s: &[u8]) -> Position
    requires { 8 ≤ length s.now }
    ensures { result ≡ dec_position s.now }
{
    let last = Transfer {
        number: base_cells::u8_at(s, 2),
        offset: base_cells::u16_at(s, 6),
    };
    Position {
        size: base_cells::u8_at(s, 0),
        next: base_cells::u8_at(s, 1),
        offset: base_cells::u16_at(s, 4),
        last: (base_cells::u8_at(s, 3) != 0).then_some(last),
    }
}

#[tactic(auto, using(std::proofs::lemmas::Bool::Decides::nat_tests), unfolding(crate::specs::Positions::dec_upload, crate::specs::Positions::dec_position))]
pub fn upload_of(s: &[u8]) -> Option<Position>
    requires { 8 ≤ length s.now }
    ensures { result ≡ dec_upload s.now }
{
    if base_cells::u8_at(s, 0) == 0 {
        return None;
    }
    Some(position_of(s))
}

// What stands in the bytes where there is no upload.
const NO_UPLOAD: Position = Position {
    size: 0,
    next: 0,
    offset: 0,
    last: None,
};

pub fn put_upload(s: &mut [u8], up: Option<Position>)
    requires { 8 ≤ length s.old }
    ensures { s.new ≡ put_fields w_position s.old 0 (list_upload up) }
{
    let p = up.unwrap_or(NO_UPLOAD);
    base_cells::put_u8(s, 0, p.size);
    base_cells::put_u8(s, 1, p.next);
    base_cells::put_u8(s, 2, p.last.map_or(0, |t| t.number));
    base_cells::put_bool(s, 3, p.last.is_some());
    base_cells::put_u16(s, 4, p.offset);
    base_cells::put_u16(s, 6, p.last.map_or(0, |t| t.offset));
}

// Without an EDS no position fits.
#[tactic(auto, using(std::proofs::lemmas::Bool::Decides::nat_tests), unfolding(crate::specs::Positions::fits, base_cells::specs::Back::all))]
fn position_fits(p: Position, limit: u8, eds: Option<u16>) -> bool
    ensures { result ≡ fits limit eds p }
{
    let Some(size) = eds else {
        return false;
    };
    let last = p.last.is_none_or(|t| t.offset <= size);
    1 <= p.size && p.size <= limit && p.offset <= size && last
}

// The rule's test of an upload, by the transfer limit and the length of the EDS, if there is one.
pub fn upload_fits(up: Option<Position>, limit: u8, eds: Option<u16>) -> bool
    ensures { result ≡ ok_with limit eds up }
{
    up.is_none_or(|p| position_fits(p, limit, eds))
}

// The mark is 0 or 1, and what a mark or a size of 0 leaves out is 0.
#[tactic(auto, using(std::proofs::lemmas::Bool::Decides::nat_tests), unfolding(crate::specs::Positions::plain, base_cells::specs::Back::all))]
fn bytes_plain(s: &[u8]) -> bool
    requires { 8 ≤ length s.now }
    ensures { result ≡ plain_list (dec_fields w_position s.now 0) }
{
    let size = u32::from(base_cells::u8_at(s, 0));
    let next = u32::from(base_cells::u8_at(s, 1));
    let number = u32::from(base_cells::u8_at(s, 2));
    let any = u32::from(base_cells::u8_at(s, 3));
    let offset = u32::from(base_cells::u16_at(s, 4));
    let before = u32::from(base_cells::u16_at(s, 6));
    any <= 1
        && any <= size
        && number <= 255 * any
        && before <= 65535 * any
        && next <= 255 * size
        && offset <= 65535 * size
}

// The position's own test: 8 bytes that are written one way, and an upload that fits this EDS and this limit.
#[tactic(auto, using(std::proofs::lemmas::Bool::Decides::nat_tests), unfolding(crate::specs::Positions::upload_tested, base_cells::specs::Back::all))]
pub fn upload_tested(s: &[u8], limit: u8, eds: Option<u16>) -> bool
    ensures { result ≡ upload_tested limit eds s.now }
{
    s.len() == 8 && bytes_plain(s) && upload_fits(upload_of(s), limit, eds)
}
