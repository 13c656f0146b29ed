// Removal of a connection from a lent state in place: hand-over of its stream, the listeners of a stream that ends, the output's run bit,
// and the event.
#![tactic(auto)]

ghost use Rattle.std.specs.Prelude.{◌≡◌, ◌<◌};
ghost use Rattle.state_rules.specs.Rows.{of_due};
ghost use Rattle.state_rules.specs.Places.{connections_of};
ghost use Rattle.state_image.specs.Holds.{Ready};
ghost use Rattle.state_image.specs.Kept.{Kept};
ghost use Rattle.conn_removal.specs.Turns.{Turns, Fewer};
ghost use Rattle.conn_removal.specs.Hands.{handed, idled};
ghost use Rattle.conn_removal.specs.Listeners.{Dropped, Closes, all_closed, feeder, ended};
ghost use Rattle.conn_removal.specs.Removals.{without_it, gone_at};

use base_ids::ToId;
use rules::{Fixed, Kind, Sent};
use state_records::Occasion;

// ---- hand-over

// A multicast producer that went hands its stream to the first that is left.
fn hand_over(s: &mut [u8], multicast: bool, id: ToId, x: Sent)
    requires { Ready s.old × (of_due x.due < 18446744073709551616) }
    ensures { Kept (connections_of s.old) s.old s.new × Turns s.old s.new (handed multicast id x) }
{
    if !multicast || x.due.is_none() {
        return;
    }
    let n = base_cells::u16_at(s, state_layout::CONNECTIONS) as usize;
    let table = &s[state_layout::TABLE..state_layout::EVENTS];
    if let Some(j) = conn_lookup::find_stream(table, n, id) {
        state_changes::put_sent(s, j, x);
    }
}

// ---- listeners of a stream that nobody feeds

// Closes the first connection of the stream, and says whether there was one.
fn close_first(s: &mut [u8], id: ToId) -> bool
    requires { Ready s.old }
    ensures { Dropped result s.old s.new × Closes id result s.old s.new }
{
    let n = base_cells::u16_at(s, state_layout::CONNECTIONS) as usize;
    let table = &s[state_layout::TABLE..state_layout::EVENTS];
    let Some(j) = conn_lookup::find_stream(table, n, id) else {
        return false;
    };
    let f = state_rows::fixed_at(table, j);
    state_changes::remove_row(s, j);
    state_events::tell(s, Occasion::Closed.number(), f);
    true
}

fn close_stream(s: &mut [u8], id: ToId)
    requires { Ready s.old }
    ensures { Fewer s.old s.new × Turns s.old s.new (all_closed id) }
{
    while close_first(s, id) {}
}

fn can_feed(k: Kind, multicast: bool) -> bool
    ensures { result ≡ feeder k multicast }
{
    multicast && !matches!(k, Kind::ListenOnly)
}

// A connection of this kind went: if none is left that feeds its stream, the listeners close.
fn end_stream(s: &mut [u8], k: Kind, multicast: bool, id: ToId)
    requires { Ready s.old }
    ensures { Fewer s.old s.new × Turns s.old s.new (ended k multicast id) }
{
    if !can_feed(k, multicast) {
        return;
    }
    let n = base_cells::u16_at(s, state_layout::CONNECTIONS) as usize;
    let table = &s[state_layout::TABLE..state_layout::EVENTS];
    if conn_lookup::find_feeder(table, n, id).is_none() {
        close_stream(s, id);
    }
}

// ---- the output of an owner that went

// It loses run; its bytes stay.
fn lose_run(s: &mut [u8], k: Kind, output: u8)
    requires { Ready s.old }
    ensures { Kept (connections_of s.old) s.old s.new × Turns s.old s.new (idled k output) }
{
    if !state_layout::is_owner(k) {
        return;
    }
    let n = base_cells::u8_at(s, 0);
    if output >= n {
        return;
    }
    let i = output as usize;
    let told = state_layout::told(s, i);
    state_changes::put_mark(s, i, false, told);
}

// ---- removal

// What follows when a connection's row has gone: f and x are what it said.
fn finish(s: &mut [u8], what: u8, f: Fixed, x: Sent)
    requires { Ready s.old × (of_due x.due < 18446744073709551616) }
    ensures { Fewer s.old s.new × Turns s.old s.new (without_it what f x) }
{
    hand_over(s, f.multicast, f.toid, x);
    end_stream(s, f.kind, f.multicast, f.toid);
    lose_run(s, f.kind, f.output);
    state_events::tell(s, what, f);
}

// The connection at a place removed, and told as `what`: an occasion's number, or any other byte.
pub fn remove_conn(s: &mut [u8], i: usize, what: u8)
    requires { Ready s.old × (i < connections_of s.old) }
    ensures { Fewer s.old s.new × Turns s.old s.new (gone_at what i) }
{
    let table = &s[state_layout::TABLE..state_layout::EVENTS];
    let f = state_rows::fixed_at(table, i);
    let x = state_rows::sent_at(table, i);
    state_changes::remove_row(s, i);
    finish(s, what, f, x);
}
