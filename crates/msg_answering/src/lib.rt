// A message to the adapter's own objects: its request, the object that it names, and the reply. Every message gets a reply; the
// state stays, and the position of an upload is the only thing that a message may change.
#![tactic(auto)]

ghost use Rattle.std.specs.Prelude.{◌≡◌, true, ℕ, ◌≤◌, ◌<◌, length};
ghost use Rattle.std.proofs.lemmas.List.Edits.{sets};
ghost use Rattle.rules.specs.Attributes.{status_number};
ghost use Rattle.wire_rules.specs.Requests.{request_of};
ghost use Rattle.rules.specs.Message.{reply_head, file_in, of_object, service_of, message_outcome};
ghost use Rattle.state_rules.specs.Image.{view};
ghost use Rattle.app_answers.specs.Outcomes.{Passed};
ghost use Rattle.msg_positions.specs.Positions.{dec_upload};
ghost use Rattle.msg_positions.specs.PositionLaws.{eds_length};
ghost use Rattle.msg_uploads.specs.Lent.{stepped};
ghost use Rattle.msg_file.specs.Files.{Whole};
ghost use Rattle.msg_answering.specs.Replies.{count, headed, replied};
ghost use Rattle.msg_answering.specs.Positions.{position_tested};

use rules::objects::Fault;
use wire_rules::{Object, Request};

// The length of the EDS, if there is one: its mark in the setup is 0, or one more.
fn eds_length(s: &[u8]) -> Option<u16>
    requires { Passed s.now }
    ensures { result ≡ eds_length (view s.now).setup.eds }
{
    let mark = base_cells::u32_at(&s[0..state_layout::SETUP_SIZE], 4);
    let n = mark.checked_sub(1)?;
    Some(n as u16)
}

// The lent position's own test: 8 bytes that are written one way, and an upload that fits the EDS and the transfer limit.
pub fn position_tested(s: &[u8], position: &[u8]) -> bool
    requires { Passed s.now }
    ensures { result ≡ position_tested (view s.now).setup position.now }
{
    let limit = base_cells::u8_at(&s[0..state_layout::SETUP_SIZE], 1);
    msg_positions::upload_tested(position, limit, eds_length(s))
}

// Without an EDS there is no File object.
fn file_in(
    s: &[u8],
    position: &mut [u8],
    service: u8,
    instance: u32,
    a: Option<u32>,
    given: &[u8],
    out: &mut [u8],
) -> Result<usize, Fault>
    requires { Passed s.now × Whole position.old × (512 ≤ length out.old) }
    ensures { (result, (position.new, out.new)) ≡ stepped (file_in (view s.now).setup service instance a given.now (dec_upload position.old) (view s.now).setup.eds) out.old }
{
    let n = eds_length(s).ok_or(Fault::PathUnknown)?;
    let e = state_layout::EDS + n as usize;
    msg_file::file(
        &s[0..state_layout::SETUP_SIZE],
        &s[state_layout::EDS..e],
        position,
        service,
        instance,
        a,
        given,
        out,
    )
}

// The five objects; class 0x02 has no service; any other class, or no object, is unknown.
#[tactic(auto, using(std::proofs::lemmas::Bool::Decides::nat_tests), unfolding(rules::specs::Message::of_class, msg_attributes::specs::Told::told))]
fn of_object(
    s: &[u8],
    position: &mut [u8],
    local: u32,
    mask: u32,
    request: Request,
    given: &[u8],
    out: &mut [u8],
) -> Result<usize, Fault>
    requires { Passed s.now × Whole position.old × (512 ≤ length out.old) }
    ensures { (result, (position.new, out.new)) ≡ stepped (of_object (view s.now) local mask request.service request.attribute given.now (dec_upload position.old) request.object) out.old }
{
    let Some(Object { class, instance }) = request.object else {
        return Err(Fault::PathUnknown);
    };
    let service = request.service;
    let a = request.attribute;
    match class {
        0x01 => msg_identity::identity(s, service, instance, a, out),
        0x02 => Err(Fault::ServiceUnknown),
        0x04 => msg_assembly::assembly(s, service, instance, a, out),
        0x37 => file_in(s, position, service, instance, a, given, out),
        0xF5 => msg_network::tcp_ip(local, mask, service, instance, a, out),
        0xF6 => msg_network::ethernet_link(s, service, instance, a, out),
        _ => Err(Fault::PathUnknown),
    }
}

// ---- the reply

fn status_of(f: Fault) -> u8
    ensures { result ≡ status_number f }
{
    match f {
        Fault::PathSegment => 0x04,
        Fault::PathUnknown => 0x05,
        Fault::ServiceUnknown => 0x08,
        Fault::StateConflict => 0x0C,
        Fault::NotEnoughData => 0x13,
        Fault::AttributeUnknown => 0x14,
        Fault::ObjectUnknown => 0x16,
    }
}

fn put_head(out: &mut [u8], service: u8, status: u8)
    requires { 516 ≤ length out.old }
    ensures { out.new ≡ sets out.old 0 (reply_head service status) }
{
    wire_heads::reply_head(out, service, status, 0, 0, 0);
}

// The head in front of the data that stand behind it already; the length of both.
fn finish(out: &mut [u8], service: u8, given: Result<usize, Fault>) -> usize
    requires { (516 ≤ length out.old) × (count given ≤ 512) }
    ensures { ((result, out.new) ≡ headed service given out.old) × (result ≤ 516) }
{
    match given {
        Ok(n) => {
            put_head(out, service, 0);
            4 + n
        }
        Err(f) => {
            put_head(out, service, status_of(f));
            4
        }
    }
}

// The reply's length.
pub fn message(
    s: &[u8],
    position: &mut [u8],
    local: u32,
    mask: u32,
    message: &[u8],
    out: &mut [u8],
) -> usize
    requires { Passed s.now × (position_tested (view s.now).setup position.old ≡ true) × (516 ≤ length out.old) }
    ensures { ((result, (position.new, out.new)) ≡ replied (service_of (request_of message.now)) (message_outcome (view s.now) local mask message.now (dec_upload position.old)) out.old) × (result ≤ 516) }
{
    match wire_requests::parse_request(message) {
        Err(service) => finish(out, service, Err(Fault::PathSegment)),
        Ok(request) => {
            let given = &message[request.datastart..];
            let told = of_object(s, position, local, mask, request, given, &mut out[4..]);
            finish(out, request.service, told)
        }
    }
}
