// Packets out. First what is due is counted and its bytes added up, so that too little room changes nothing; then each packet is
// written behind the one before, and the connection steps.
#![tactic(auto)]

ghost use Rattle.std.specs.Prelude.{◌≡◌, ◌+◌, ◌*◌, ◌≤◌, ◌<◌, length};
ghost use Rattle.rules.specs.Answers.{outcome_number};
ghost use Rattle.state_rules.specs.Places.{connections_of};
ghost use Rattle.state_image.specs.Holds.{Ready, Slotted, Becomes};
ghost use Rattle.state_image.specs.Kept.{Kept};
ghost use Rattle.io_producing.specs.Passes.{Sends, SendsAll, tally_kept, Produces};

use io_counting::Tally;
use rules::No;

// Row i steps, and its packet is written at its place; how many bytes it has. Where there was room for all, there is room for it.
fn send_row(s: &mut [u8], out: &mut [u8], at: usize, i: usize, time: u64) -> usize
    requires { Ready s.old × Slotted s.old × (i < connections_of s.old) × (at ≤ length out.old) × (time < 9223372036854775808) }
    ensures { (at + result ≤ length out.old) × Kept (connections_of s.old) s.old s.new × Sends time i at s.old s.new out.old out.new result }
{
    let x = state_rows::sent_at(&s[state_layout::TABLE..state_layout::EVENTS], i);
    if !io_packets::is_due(x.due, time) {
        return 0;
    }
    let f = state_rows::fixed_at(&s[state_layout::TABLE..state_layout::EVENTS], i);
    let p = io_packets::data_of(s, f.input);
    if out.len() - at < 33 + p.size {
        return 0;
    }
    let y = io_packets::step(x, f.torpi, time);
    let a = p.at;
    let e = a + p.size;
    io_packets::write_packet(&mut out[at..], f, y, &s[a..e]);
    state_changes::put_sent(s, i, y);
    33 + p.size
}

fn send_all(s: &mut [u8], out: &mut [u8], time: u64)
    requires { Ready s.old × Slotted s.old × (time < 9223372036854775808) }
    ensures { Ready s.new × SendsAll time s.old s.new out.old out.new }
{
    let n = base_cells::u16_at(s, state_layout::CONNECTIONS) as usize;
    let mut at: usize = 0;
    for i in 0..n {
        at += send_row(s, out, at, i, time);
    }
}

// ---- the counters

// A counter stops at its largest value.
fn keep_tally(s: &mut [u8], k: Tally)
    requires { Ready s.old }
    ensures { Becomes s.old s.new (tally_kept k) }
{
    let produced = base_cells::u64_at(s, state_layout::PRODUCED).saturating_add(k.count);
    let late = base_cells::u64_at(s, state_layout::LATE).saturating_add(k.late);
    state_changes::set_counters(s, produced, late, k.worst);
}

// ---- the call

// What is due counted and sent; where the output is too short nothing steps.
fn produce_due(s: &mut [u8], time: u64, out: &mut [u8]) -> Result<u16, No>
    requires { Ready s.old × Slotted s.old × (time < 9223372036854775808) }
    ensures { Produces time s.old s.new out.old out.new (outcome_number result) }
{
    let k = io_counting::count_all(s, time);
    if out.len() < k.need {
        return Err(No::NoRoom);
    }
    send_all(s, out, time);
    keep_tally(s, k);
    Ok(k.need as u16)
}

// The answer of a state that passed its test. Whether anything is due is asked first: most calls end there.
pub fn produce(s: &mut [u8], time: u64, out: &mut [u8]) -> Result<u16, No>
    requires { Ready s.old × Slotted s.old × (time < 9223372036854775808) }
    ensures { Produces time s.old s.new out.old out.new (outcome_number result) }
{
    let n = base_cells::u16_at(s, state_layout::CONNECTIONS) as usize;
    if !io_counting::any_due(&s[state_layout::TABLE..state_layout::EVENTS], n, time) {
        return Ok(0);
    }
    produce_due(s, time, out)
}
