// Close and expiry on a lent state in place.
#![tactic(auto)]

ghost use Rattle.std.specs.Prelude.{◌≡◌, ◌<◌};
ghost use Rattle.rules.specs.Answers.{outcome_number};
ghost use Rattle.state_rules.specs.Places.{connections_of};
ghost use Rattle.state_image.specs.Holds.{Ready};
ghost use Rattle.rules.specs.Removal.{expire_effect};
ghost use Rattle.conn_removal.specs.Turns.{Turns, Fewer};
ghost use Rattle.conn_removal.specs.Removals.{Ends};
ghost use Rattle.conn_ending.specs.Expiry.{EndsAll};
ghost use Rattle.conn_ending.specs.Calls.{ClosesAt, ClosesFor};

use base_ids::Triad;
use rules::No;
use state_records::Occasion;

// ---- close

// The connection at a place closed, and the reply at the start of the output.
fn close_at(s: &mut [u8], i: usize, t: Triad, out: &mut [u8]) -> Result<u16, No>
    requires { Ready s.old × (i < connections_of s.old) }
    ensures { ClosesAt i t (outcome_number result) s.old s.new out.old out.new }
{
    if out.len() < 10 {
        return Err(No::NoRoom);
    }
    conn_removal::remove_conn(s, i, Occasion::Closed.number());
    wire_replies::close_reply(out, t);
    Ok(10)
}

// The connection of the triad closed.
pub fn close(s: &mut [u8], t: Triad, out: &mut [u8]) -> Result<u16, No>
    requires { Ready s.old }
    ensures { ClosesFor t (outcome_number result) s.old s.new out.old out.new }
{
    let n = base_cells::u16_at(s, state_layout::CONNECTIONS) as usize;
    let table = &s[state_layout::TABLE..state_layout::EVENTS];
    let Some(i) = conn_lookup::find_triad(table, n, t) else {
        return Err(No::NothingThere);
    };
    close_at(s, i, t, out)
}

// ---- expiry

// Removes the first connection that has expired, and says whether there was one.
fn expire_one(s: &mut [u8], time: u64) -> bool
    requires { Ready s.old }
    ensures { Fewer s.old s.new × Ends time result s.old s.new }
{
    let n = base_cells::u16_at(s, state_layout::CONNECTIONS) as usize;
    let table = &s[state_layout::TABLE..state_layout::EVENTS];
    let Some(i) = conn_lookup::find_expired(table, n, time) else {
        return false;
    };
    conn_removal::remove_conn(s, i, Occasion::TimedOut.number());
    state_changes::set_fault(s, true);
    true
}

// The connections that have expired removed, one after the other, of the n that there are.
fn expire_each(s: &mut [u8], time: u64, n: u16)
    requires { Ready s.old × (n ≡ connections_of s.old) }
    ensures { Fewer s.old s.new × Turns s.old s.new (expire_effect time) }
{
    for _ in 0..n {
        if !expire_one(s, time) {
            return;
        }
    }
}

// How many went.
fn expire_some(s: &mut [u8], time: u64) -> u16
    requires { Ready s.old }
    ensures { Fewer s.old s.new × EndsAll time result s.old s.new }
{
    let n = base_cells::u16_at(s, state_layout::CONNECTIONS);
    expire_each(s, time, n);
    n - base_cells::u16_at(s, state_layout::CONNECTIONS)
}

// Removes every connection that has expired and says how many went. Whether any has is asked first: most calls end there.
pub fn expire_all(s: &mut [u8], time: u64) -> u16
    requires { Ready s.old }
    ensures { Fewer s.old s.new × EndsAll time result s.old s.new }
{
    let n = base_cells::u16_at(s, state_layout::CONNECTIONS) as usize;
    if !conn_lookup::any_expired(&s[state_layout::TABLE..state_layout::EVENTS], n, time) {
        return 0;
    }
    expire_some(s, time)
}
