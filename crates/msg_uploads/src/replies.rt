// The reply data of an upload's steps, at the start of the lent output: 259 bytes at most.
ghost use Rattle.std.specs.Prelude.{◌≡◌, ◌+◌, ◌≤◌, min, length};
ghost use Rattle.std.proofs.lemmas.List.Edits.{sets};
ghost use Rattle.rules.specs.Attributes.{Gives};
ghost use Rattle.rules.specs.Upload.{initiate_reply, transfer_type, transfer_reply};
ghost use Rattle.msg_attributes.specs.Told.{told};
ghost use Rattle.msg_uploads.specs.Sending.{part_of, tail_of};

use crate::checksum;
use rules::objects::Fault;

// 0 first, 1 middle, 2 last, 4 first and last.
fn transfer_type(first: bool, last: bool) -> u8
    ensures { result ≡ transfer_type first last }
{
    match (first, last) {
        (true, true) => 4,
        (true, false) => 0,
        (false, true) => 2,
        (false, false) => 1,
    }
}

// The bytes of the EDS, behind number and type.
fn put_part(out: &mut [u8], eds: &[u8], size: u8, offset: u16) -> usize
    requires { 257 ≤ length out.old }
    ensures { (result ≡ length (part_of eds.now size offset)) × (result ≤ 255) × (out.new ≡ sets out.old 2 (part_of eds.now size offset)) }
{
    let from = (offset as usize).min(eds.len());
    let to = ((offset as usize) + (size as usize)).min(eds.len());
    base_copies::copy_in(out, 2, &eds[from..to]);
    to - from
}

// The last transfer adds the checksum.
#[tactic(auto, unfolding(crate::specs::Sending::tail_of, base_cells::specs::Numbers::put, base_cells::specs::Numbers::le_bytes))]
fn put_tail(out: &mut [u8], at: usize, eds: &[u8], last: bool) -> usize
    requires { (length eds.now ≤ 65535) × (at + 2 ≤ length out.old) }
    ensures { (result ≡ length (tail_of eds.now last)) × (result ≤ 2) × (out.new ≡ sets out.old at (tail_of eds.now last)) }
{
    if last {
        base_cells::put_u16(out, at, checksum(eds));
        2
    } else {
        0
    }
}

// The reply data of a transfer.
pub fn send_part(
    eds: &[u8],
    size: u8,
    number: u8,
    offset: u16,
    out: &mut [u8],
) -> Result<usize, Fault>
    requires { (length eds.now ≤ 65535) × (259 ≤ length out.old) }
    ensures { (result, out.new) ≡ told (Gives (transfer_reply eds.now size number offset)) out.old }
{
    let last = eds.len() <= offset as usize + size as usize;
    base_cells::put_u8(out, 0, number);
    base_cells::put_u8(out, 1, transfer_type(offset == 0, last));
    let n = put_part(out, eds, size, offset);
    let m = put_tail(out, 2 + n, eds, last);
    Ok(2 + n + m)
}

// The reply data of initiate: the length of the EDS in 4 bytes, and the size.
#[tactic(auto, unfolding(msg_attributes::specs::Told::told, base_cells::specs::Numbers::put, base_cells::specs::Numbers::le_bytes))]
pub fn send_length(eds: &[u8], size: u8, out: &mut [u8]) -> Result<usize, Fault>
    requires { (length eds.now ≤ 65535) × (5 ≤ length out.old) }
    ensures { (result, out.new) ≡ told (Gives (initiate_reply eds.now size)) out.old }
{
    base_cells::put_u32(out, 0, eds.len() as u32);
    base_cells::put_u8(out, 4, size);
    Ok(5)
}
