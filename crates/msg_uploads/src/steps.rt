// One step of an upload: over the upload lent, then over its lent bytes.
ghost use Rattle.std.specs.Prelude.{◌≡◌, ◌≤◌, length};
ghost use Rattle.rules.specs.Upload.{initiate, transfer};
ghost use Rattle.msg_attributes.specs.Told.{told};
ghost use Rattle.msg_positions.specs.Positions.{dec_upload};
ghost use Rattle.msg_uploads.specs.Lent.{stepped};

use crate::replies::{send_length, send_part};
use crate::{advanced, clamped, turn_of};
use msg_positions::{put_upload, upload_of};
use rules::objects::{Fault, Position, Turn};

// ---- over the upload lent

#[tactic(auto, using(crate::proofs::StepLaws::initiate_first), unfolding(msg_attributes::specs::Told::told))]
fn initiate_lent(
    limit: u8,
    eds: &[u8],
    up: &mut Option<Position>,
    given: &[u8],
    out: &mut [u8],
) -> Result<usize, Fault>
    requires { (length eds.now ≤ 65535) × (259 ≤ length out.old) }
    ensures { ((result, out.new) ≡ told (initiate limit eds.now up.old given.now).0 out.old)
        × (up.new ≡ (initiate limit eds.now up.old given.now).1) }
{
    let wanted = *given.first().ok_or(Fault::NotEnoughData)?;
    let size = clamped(limit, wanted);
    *up = Some(Position {
        size,
        next: 0,
        offset: 0,
        last: None,
    });
    send_length(eds, size, out)
}

// A repeat gives the same bytes again; the upload advances only on a transfer in turn.
#[tactic(auto, using(crate::proofs::StepLaws::transfer_first, crate::specs::Steps::advanced_to_lem), unfolding(msg_attributes::specs::Told::told))]
fn transfer_lent(
    eds: &[u8],
    up: &mut Option<Position>,
    given: &[u8],
    out: &mut [u8],
) -> Result<usize, Fault>
    requires { (length eds.now ≤ 65535) × (259 ≤ length out.old) }
    ensures { ((result, out.new) ≡ told (transfer eds.now up.old given.now).0 out.old)
        × (up.new ≡ (transfer eds.now up.old given.now).1) }
{
    let number = *given.first().ok_or(Fault::NotEnoughData)?;
    let p = up.ok_or(Fault::StateConflict)?;
    let offset = match turn_of(p, number) {
        Turn::Repeat(offset) => offset,
        Turn::InTurn => {
            *up = Some(advanced(p, eds.len() as u16));
            p.offset
        }
        Turn::OutOfTurn => return Err(Fault::StateConflict),
    };
    send_part(eds, p.size, number, offset, out)
}

// ---- over the upload's lent bytes, 8 of them

#[tactic(auto, using(crate::specs::Lent::put_whole))]
pub fn initiate(
    limit: u8,
    eds: &[u8],
    position: &mut [u8],
    given: &[u8],
    out: &mut [u8],
) -> Result<usize, Fault>
    requires { (length position.old ≡ 8) × (length eds.now ≤ 65535) × (259 ≤ length out.old) }
    ensures { (result, (position.new, out.new)) ≡ stepped (initiate limit eds.now (dec_upload position.old) given.now) out.old }
{
    let mut up = upload_of(position);
    let sent = initiate_lent(limit, eds, &mut up, given, out);
    put_upload(position, up);
    sent
}

#[tactic(auto, using(crate::specs::Lent::put_whole))]
pub fn transfer(
    eds: &[u8],
    position: &mut [u8],
    given: &[u8],
    out: &mut [u8],
) -> Result<usize, Fault>
    requires { (length position.old ≡ 8) × (length eds.now ≤ 65535) × (259 ≤ length out.old) }
    ensures { (result, (position.new, out.new)) ≡ stepped (transfer eds.now (dec_upload position.old) given.now) out.old }
{
    let mut up = upload_of(position);
    let sent = transfer_lent(eds, &mut up, given, out);
    put_upload(position, up);
    sent
}
