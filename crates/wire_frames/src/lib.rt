// The frame writer: an I/O frame of two items, the sequenced address item and the connected data item, whose bytes begin with
// the 16-bit CIP sequence. What was written is read again by `wire_items` (proofs/RoundLaws.antt).
#![tactic(auto)]

ghost use Rattle.std.specs.Prelude.{◌≡◌, ◌≤◌, length};
ghost use Rattle.base_cells.specs.Records.{put_fields};
ghost use Rattle.wire_rules.specs.Writing.{frame_written, frame_appended, front_widths, front_values};

use base_ids::ToId;

// All of a frame but the data.
fn put_front(out: &mut [u8], id: ToId, sequence: u32, cip: u16, size: u16)
    requires { 20 ≤ length out.old }
    ensures { out.new ≡ put_fields front_widths out.old 0 (front_values id.0 sequence cip size) }
{
    base_cells::put_u16(out, 0, 2);
    base_cells::put_u16(out, 2, 0x8002);
    base_cells::put_u16(out, 4, 8);
    base_cells::put_u32(out, 6, id.0);
    base_cells::put_u32(out, 10, sequence);
    base_cells::put_u16(out, 14, 0xB1);
    base_cells::put_u16(out, 16, size);
    base_cells::put_u16(out, 18, cip);
}

// The frame writer: an I/O frame at the start of the output, and its size; `None` where it does not fit or has too many bytes: nothing was written.
#[tactic(auto, using(crate::proofs::WriteLaws::too_long, crate::proofs::WriteLaws::no_room, crate::proofs::WriteLaws::all_written))]
pub fn encode_io(out: &mut [u8], id: ToId, sequence: u32, cip: u16, bytes: &[u8]) -> Option<usize>
    ensures { (result, out.new) ≡ frame_written out.old id.0 sequence cip bytes.now }
{
    let n = bytes.len();
    if 65533 < n || out.len() < 20 + n {
        return None;
    }
    put_front(out, id, sequence, cip, (2 + n) as u16);
    base_copies::copy_in(out, 20, bytes);
    Some(20 + n)
}

// The same behind what the output holds already: the rest from `at` on is lent to the frame writer. `None` too where `at` is past the end.
#[tactic(auto, unfolding(wire_rules::specs::Writing::frame_appended))]
pub fn append_io(
    out: &mut [u8],
    at: usize,
    id: ToId,
    sequence: u32,
    cip: u16,
    bytes: &[u8],
) -> Option<usize>
    ensures { (result, out.new) ≡ frame_appended out.old at id.0 sequence cip bytes.now }
{
    // No `out.get_mut(at..)?`: tried, and its contract says nothing of what the output ends as.
    if out.len() < at {
        return None;
    }
    encode_io(&mut out[at..], id, sequence, cip, bytes)
}
