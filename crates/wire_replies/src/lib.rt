// What the adapter answers an open, a close and any message with. Each writer puts its bytes at the start of the lent
// output and says how many they are; where they do not fit it writes nothing and says `None`. Numbers are little-endian.
#![tactic(auto)]

ghost use Rattle.std.specs.Prelude.{◌≡◌, ◌+◌, ◌≤◌, [], ◌∷◌, length};
ghost use Rattle.base_cells.specs.Records.{put_fields};
ghost use Rattle.base_cells.specs.Writes.{written};
ghost use Rattle.wire_rules.specs.Replies.{triad_widths, triad_fields, open_reply, triad_reply, open_refusal, close_reply};

use base_ids::{OtId, ToId, Triad};

fn put_triad(s: &mut [u8], at: usize, triad: Triad)
    requires { at + 8 ≤ length s.old }
    ensures { s.new ≡ put_fields triad_widths s.old at (triad_fields triad) }
{
    base_cells::put_u16(s, at, triad.serial);
    base_cells::put_u16(s, at + 2, triad.vendor);
    base_cells::put_u32(s, at + 2 + 2, triad.originator);
}

fn put_zeros(s: &mut [u8], at: usize)
    requires { at + 2 ≤ length s.old }
    ensures { s.new ≡ put_fields (1 ∷ 1 ∷ []) s.old at (0 ∷ 0 ∷ []) }
{
    base_cells::put_u8(s, at, 0);
    base_cells::put_u8(s, at + 1, 0);
}

// The reply data of an accepted open; `None`: no room, nothing was written.
#[tactic(auto, using(crate::proofs::WriteLaws::open_none, crate::proofs::WriteLaws::open_all))]
pub fn open_reply(
    out: &mut [u8],
    otid: OtId,
    toid: ToId,
    triad: Triad,
    otrpi: u32,
    torpi: u32,
) -> Option<usize>
    ensures { (result, out.new) ≡ written out.old (open_reply otid toid triad otrpi torpi) }
{
    if out.len() < 26 {
        return None;
    }
    base_cells::put_u32(out, 0, otid.0);
    base_cells::put_u32(out, 4, toid.0);
    put_triad(out, 8, triad);
    base_cells::put_u32(out, 16, otrpi);
    base_cells::put_u32(out, 20, torpi);
    put_zeros(out, 24);
    Some(26)
}

#[tactic(auto, using(crate::proofs::WriteLaws::triad_none, crate::proofs::WriteLaws::triad_all))]
fn triad_reply(out: &mut [u8], triad: Triad) -> Option<usize>
    ensures { (result, out.new) ≡ written out.old (triad_reply triad) }
{
    if out.len() < 10 {
        return None;
    }
    put_triad(out, 0, triad);
    put_zeros(out, 8);
    Some(10)
}

// The reply data of a refused open, laid out as a close's; `None`: no room, nothing was written.
pub fn open_refusal(out: &mut [u8], triad: Triad) -> Option<usize>
    ensures { (result, out.new) ≡ written out.old (open_refusal triad) }
{
    triad_reply(out, triad)
}

// The reply data of a close; `None`: no room, nothing was written.
pub fn close_reply(out: &mut [u8], triad: Triad) -> Option<usize>
    ensures { (result, out.new) ≡ written out.old (close_reply triad) }
{
    triad_reply(out, triad)
}
