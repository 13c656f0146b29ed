// The new connection in the lent state, and the reply.
ghost use Rattle.std.specs.Prelude.{◌≡◌, true, [], ℕ, ◌+◌, ◌≤◌, ◌<◌, length};
ghost use Rattle.std.proofs.lemmas.List.Edits.{sets};
ghost use Rattle.rules.specs.Answers.{Accepted, answer_number};
ghost use Rattle.rules.specs.Checks.{asks_multicast};
ghost use Rattle.state_rules.specs.Rows.{of_due, RowFits};
ghost use Rattle.state_rules.specs.Places.{connections_of, assemblies_of};
ghost use Rattle.state_rules.specs.Image.{tested};
ghost use Rattle.state_image.specs.Holds.{Ready};
ghost use Rattle.state_image.specs.Kept.{Kept};
ghost use Rattle.state_image.specs.Lift.{lifted_out};
ghost use Rattle.open_answering.specs.Sides.{side_in};
ghost use Rattle.open_answering.specs.Steps.{Places, Configures, Puts, Room, Opens, Fit, reply_from, plan_call};

use crate::making;
use crate::making::Side;
use base_ids::OtId;
use rules::{Conn, Origin, Plan, Socket};
use state_events::AssemblyChange;
use state_records::Occasion;
use wire_rules::ForwardOpen;

// The next id, the row and the event of a new connection.
fn place(s: &mut [u8], c: Conn, next: u32)
    requires { Ready s.old × (connections_of s.old < 32) × (of_due c.sent.due < 18446744073709551616) × (0 < next) × (c.fixed.input ≤ 31) × RowFits c }
    ensures { Kept (connections_of s.old + 1) s.old s.new × Places c next s.old s.new }
{
    state_changes::set_next_id(s, next);
    state_changes::add_row(s, c);
    state_events::tell(s, Occasion::Opened.number(), c.fixed);
}

// Configuration data in its assembly, and its event.
fn configure(s: &mut [u8], i: u8, config: &[u8])
    requires { Ready s.old × (i < assemblies_of s.old) × (length config.now ≤ 512) }
    ensures { Kept (connections_of s.old) s.old s.new × Configures i config.now s.old s.new }
{
    let i = i as usize;
    state_changes::put_bytes(s, i, config);
    let instance = state_layout::instance_at(s, i);
    state_events::tell_assembly(
        s,
        AssemblyChange::Configured.number(),
        instance,
        config.len() as u16,
    );
}

fn store(s: &mut [u8], stores: Option<u8>, config: &[u8])
    requires { Ready s.old × Room stores config.now s.old }
    ensures { Kept (connections_of s.old) s.old s.new × Puts stores config.now s.old s.new }
{
    if let Some(i) = stores {
        configure(s, i, config);
    }
}

// What an accepted open leaves: the connection, its data, and no fault mark.
fn effect(s: &mut [u8], c: Conn, next: u32, stores: Option<u8>, config: &[u8])
    requires { Ready s.old × (connections_of s.old < 32) × (of_due c.sent.due < 18446744073709551616) × (0 < next) × Room stores config.now s.old × (c.fixed.input ≤ 31) × RowFits c }
    ensures { Kept (connections_of s.old + 1) s.old s.new × Opens c next stores config.now s.old s.new }
{
    place(s, c, next);
    store(s, stores, config);
    state_changes::set_fault(s, false);
}

// Whether T→O is multicast, and then the port and the address of its stream.
#[tactic(auto, unfolding(rules::specs::Answers::answer_number))]
fn accepted_number(multicast: bool, dest: Socket) -> u64
    ensures { result ≡ answer_number (Accepted multicast dest []) }
{
    if multicast {
        0x100 + ((dest.port as u64) << 16) + ((dest.address as u64) << 32)
    } else {
        0
    }
}

// The ids, the triad, the O→T RPI as asked and the T→O RPI taken.
fn reply(out: &mut [u8], o: ForwardOpen, n: u32, side: Side)
    requires { 26 ≤ length out.old }
    ensures { out.new ≡ sets out.old 0 (reply_from o n side) }
{
    wire_replies::open_reply(out, OtId(n), side.toid, o.triad, o.ot.rpi, side.torpi);
}

// An open that passed every check: No. 8 where its reply does not fit, else it is there and answered.
pub fn accept(
    s: &mut [u8],
    time: u64,
    o: ForwardOpen,
    g: Origin,
    p: Plan,
    config: &[u8],
    out: &mut [u8],
) -> u64
    requires { (tested s.old ≡ true) × (time < 9223372036854775808) × Fit p config.now s.old }
    ensures { (result, (s.new, out.new)) ≡ lifted_out (plan_call time o g config.now p) s.old out.old }
{
    if out.len() < 26 {
        return 8;
    }
    let n = base_cells::u32_at(s, state_layout::NEXT_ID);
    let side = making::side_of(o, g, making::after_id(n), p.stream);
    let c = making::new_conn(time, o, g, p, n, side);
    effect(s, c, side.next, p.stores, config);
    reply(out, o, n, side);
    accepted_number(making::asks_multicast(o), side.dest)
}
