// What a refused open is answered with: the number that carries its status and words, and the data of its reply.
#![tactic(auto)]

ghost use Rattle.std.specs.Prelude.{◌≡◌, ◌+◌, [], ◌∷◌, length};
ghost use Rattle.rules.specs.Answers.{Failed, words_number, answer_number, outcome_number};
ghost use Rattle.rules.specs.Opening.{open_asked, refusal_answer};
ghost use Rattle.msg_routing.specs.Answered.{answered};

use rules::{No, Stop};
use wire_rules::ForwardOpen;

// The open that a service's data is: 0x54 is a small one, 0x5B a large one.
pub fn request_of(service: u8, request: &[u8]) -> Option<ForwardOpen>
    ensures { result ≡ open_asked service request.now }
{
    match service {
        0x5B => wire_opens::decode_open(request, true),
        0x54 => wire_opens::decode_open(request, false),
        _ => None,
    }
}

// The data of a refused open's reply: its triad, written only where it parses and fits.
#[tactic(auto, unfolding(rules::specs::Opening::refusal_answer, rules::specs::Answers::answer_number, msg_routing::specs::Answered::answered))]
pub fn refusal(service: u8, request: &[u8], out: &mut [u8]) -> Result<u16, No>
    ensures { (outcome_number result, out.new) ≡ answered (refusal_answer service request.now) out.old }
{
    let o = request_of(service, request).ok_or(No::NotParsed)?;
    let n = wire_replies::open_refusal(out, o.triad).ok_or(No::NoRoom)?;
    Ok(n as u16)
}

// ---- the number

// No. 5 with general status 0x01 and one word.
fn one_word(w: u16) -> u64
    ensures { result ≡ 5 + words_number (w ∷ []) }
{
    0x1_0105 + ((w as u64) << 32)
}

fn two_words(w: u16, v: u16) -> u64
    ensures { result ≡ 5 + words_number (w ∷ v ∷ []) }
{
    0x2_0105 + ((w as u64) << 32) + ((v as u64) << 48)
}

// What the host answers an open with that does not pass a check.
#[tactic(auto, unfolding(rules::specs::Answers::answer_number))]
pub fn stop_number(stop: Stop) -> u64
    ensures { result ≡ answer_number (Failed stop) }
{
    match stop {
        Stop::Transport(_) => one_word(0x0103),
        Stop::PathBroken(_) | Stop::PathBarred => one_word(0x0315),
        Stop::KeyVendor { .. } | Stop::KeyProduct { .. } => one_word(0x0114),
        Stop::KeyDevice { .. } => one_word(0x0115),
        Stop::KeyRevision { .. } => one_word(0x0116),
        Stop::ClassNotFour(_)
        | Stop::NumberCount(_)
        | Stop::NoOutputPoint(_)
        | Stop::NoInputPoint(_) => one_word(0x0117),
        Stop::NoConfig { .. } => one_word(0x0118),
        Stop::ConfigLength { size, .. } => two_words(0x0109, size),
        Stop::OtRpi { .. } | Stop::ToRpi { .. } => one_word(0x0111),
        Stop::OtType(_) | Stop::ToType(_) => one_word(0x0108),
        Stop::OwnerSize { wanted, .. } => two_words(0x0109, wanted),
        Stop::HeartbeatSize(_) => two_words(0x0109, 2),
        Stop::InputSize { wanted, .. } => two_words(0x0109, wanted),
        Stop::TriadInUse => one_word(0x0100),
        Stop::Owned(_) => one_word(0x0106),
        Stop::NoStream => one_word(0x0119),
        Stop::ListenPointToPoint => one_word(0x0108),
        Stop::Full => one_word(0x0113),
    }
}
