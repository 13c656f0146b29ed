// Frames in. A frame is for the first connection with its O→T id and its sender's address; the rules' order (chapter 9) decides what is
// recorded before what is looked at.
#![tactic(auto)]

ghost use Rattle.std.specs.Prelude.{◌≡◌, not, ◌||◌, ◌+◌, ◌≤◌, ◌<◌, length};
ghost use Rattle.std.specs.Bool.{beq};
ghost use Rattle.wire_rules.specs.Timeout.{timeout_of};
ghost use Rattle.rules.specs.Receiving.{receive_effect};
ghost use Rattle.state_rules.specs.Places.{connections_of, assemblies_of};
ghost use Rattle.state_image.specs.Holds.{Ready, Slotted, Becomes};
ghost use Rattle.state_image.specs.Kept.{Kept};
ghost use Rattle.io_receiving.specs.Steps.{Replaces, TakesIn, Offers, Hears, HearsFrom};

use base_ids::OtId;
use rules::Heard;
use state_events::AssemblyChange;
use wire_rules::IoFrame;

// How long a connection lives that was heard at a time.
pub fn lives_until(time: u64, rpi: u32, multiplier: u8) -> u64
    requires { time < 9223372036854775808 }
    ensures { result ≡ time + timeout_of rpi multiplier }
{
    time + wire_numbers::timeout(rpi, multiplier)
}

fn differs(changed: bool, was: bool, run: bool) -> bool
    ensures { result ≡ changed || not (beq was run) }
{
    if changed {
        return true;
    }
    if was {
        return !run;
    }
    run
}

// ---- the output's data

// As many bytes over an assembly's, and whether they differ from what it had.
fn put_data(s: &mut [u8], i: usize, d: &[u8]) -> bool
    requires { Ready s.old × (i < assemblies_of s.old) × (length d.now ≤ 512) }
    ensures { Kept (connections_of s.old) s.old s.new × Replaces i d.now s.old s.new result }
{
    if base_copies::same_at(s, state_layout::DATA + i * state_layout::SLOT, d) {
        return false;
    }
    state_changes::put_bytes(s, i, d);
    true
}

// A payload of the right size: data and run bit, the event only on a change, once until the output is read.
fn take_in(s: &mut [u8], i: usize, d: &[u8])
    requires { Ready s.old × (i < assemblies_of s.old) × (6 ≤ length d.now) × (length d.now ≤ 518) }
    ensures { TakesIn i d.now s.old s.new }
{
    let was = state_layout::runs(s, i);
    let told = state_layout::told(s, i);
    let run = d[2] % 2 == 1;
    let instance = state_layout::instance_at(s, i);
    let changed = put_data(s, i, &d[6..]);
    if !differs(changed, was, run) {
        return;
    }
    state_changes::put_mark(s, i, run, true);
    if told {
        return;
    }
    state_events::tell_assembly(s, AssemblyChange::OutputChanged.number(), instance, 0);
}

// The data behind CIP sequence and header must be of the output's size.
fn offer(s: &mut [u8], output: u8, d: &[u8])
    requires { Ready s.old × Slotted s.old }
    ensures { Offers output d.now s.old s.new }
{
    let n = base_cells::u8_at(s, 0) as usize;
    let o = output as usize;
    if n <= o {
        return;
    }
    let size = state_layout::size_at(s, o) as usize;
    if d.len() != size + 6 {
        return;
    }
    take_in(s, o, d);
}

// A frame's payload at the connection of a place: sequence and time are recorded first, then the CIP sequence, then header and
// length are looked at.
fn hear(s: &mut [u8], i: usize, time: u64, q: u32, d: &[u8])
    requires { Ready s.old × Slotted s.old × (i < connections_of s.old) × (time < 9223372036854775808) }
    ensures { Hears i time q d.now s.old s.new }
{
    let h = state_rows::heard_at(&s[state_layout::TABLE..state_layout::EVENTS], i);
    if !io_hearing::is_newer(h, q) {
        return;
    }
    let f = state_rows::fixed_at(&s[state_layout::TABLE..state_layout::EVENTS], i);
    let k = f.kind;
    let until = lives_until(time, f.otrpi, f.multiplier);
    if !io_hearing::has_cip(k, d) {
        let x = Heard {
            until,
            any: true,
            sequence: q,
            anycip: h.anycip,
            cip: h.cip,
        };
        state_changes::put_heard(s, i, x);
        return;
    }
    let cip = base_cells::u16_at(d, 0);
    let x = Heard {
        until,
        any: true,
        sequence: q,
        anycip: true,
        cip,
    };
    state_changes::put_heard(s, i, x);
    if io_hearing::repeats(h, cip) {
        return;
    }
    offer(s, f.output, d);
}

fn hear_from(s: &mut [u8], time: u64, from: u32, id: OtId, q: u32, d: &[u8])
    requires { Ready s.old × Slotted s.old × (time < 9223372036854775808) }
    ensures { HearsFrom time from id q d.now s.old s.new }
{
    let n = base_cells::u16_at(s, state_layout::CONNECTIONS) as usize;
    match io_hearing::find(&s[state_layout::TABLE..state_layout::EVENTS], n, id, from) {
        Some(i) => {
            hear(s, i, time, q, d);
        }
        None => {}
    }
}

// The effect of a frame on a state that passed its test.
pub fn receive(s: &mut [u8], time: u64, from: u32, frame: &[u8])
    requires { Ready s.old × Slotted s.old × (time < 9223372036854775808) }
    ensures { Becomes s.old s.new (receive_effect time from frame.now) }
{
    match wire_items::decode_io(frame) {
        IoFrame::Io {
            id,
            sequence,
            start,
            len,
        } => {
            let e = start + len;
            hear_from(s, time, from, id, sequence, &frame[start..e]);
        }
        IoFrame::NotIo => {}
        IoFrame::Broken(_) => {}
    }
}
