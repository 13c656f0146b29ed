// The identity status: whether an exclusive owner is in the table, and the extended device status.
#![tactic(auto)]

ghost use Rattle.std.specs.Prelude.{◌≡◌, ℕ, ◌≤◌, ◌<◌, length};
ghost use Rattle.rules.specs.Lists.{any};
ghost use Rattle.rules.specs.State.{content_at};
ghost use Rattle.rules.specs.Objects.{owned, running, extended_status, identity_status};
ghost use Rattle.state_rules.specs.Rows.{conn_at, conns_in};
ghost use Rattle.state_rules.specs.Places.{table_in, table_size, connections_of};
ghost use Rattle.state_rules.specs.Image.{view};
ghost use Rattle.app_answers.specs.Outcomes.{Passed};
ghost use Rattle.msg_status.specs.Status.{owner_in, runs_in};

fn owner_at(r: &[u8], i: usize) -> bool
    requires { (i < 32) × (table_size ≤ length r.now) }
    ensures { result ≡ owner_in (conn_at r.now i) }
{
    state_layout::is_owner(state_rows::fixed_at(r, i).kind)
}

fn any_owner(r: &[u8], n: usize) -> bool
    requires { (n ≤ 32) × (table_size ≤ length r.now) }
    ensures { result ≡ any owner_in (conns_in n r.now) }
{
    for i in 0..n {
        if owner_at(r, i) {
            return true;
        }
    }
    false
}

pub fn is_owned(s: &[u8]) -> bool
    requires { Passed s.now }
    ensures { result ≡ owned (view s.now) }
{
    let n = base_cells::u16_at(s, state_layout::CONNECTIONS) as usize;
    any_owner(&s[state_layout::TABLE..state_layout::EVENTS], n)
}

// Whether the assembly at that place is in run; a place past the list is not.
fn runs(s: &[u8], i: usize) -> bool
    requires { Passed s.now }
    ensures { result ≡ (content_at (view s.now) i).run }
{
    let n = base_cells::u8_at(s, 0) as usize;
    i < n && state_layout::runs(s, i)
}

#[tactic(auto, using(std::proofs::lemmas::Bool::Decides::nat_tests))]
fn running_at(s: &[u8], i: usize) -> bool
    requires { Passed s.now × (i < connections_of s.now) }
    ensures { result ≡ runs_in (view s.now) (conn_at (table_in s.now) i) }
{
    let f = state_rows::fixed_at(&s[state_layout::TABLE..state_layout::EVENTS], i);
    state_layout::is_owner(f.kind) && runs(s, f.output as usize)
}

pub fn is_running(s: &[u8]) -> bool
    requires { Passed s.now }
    ensures { result ≡ running (view s.now) }
{
    let n = base_cells::u16_at(s, state_layout::CONNECTIONS) as usize;
    for i in 0..n {
        if running_at(s, i) {
            return true;
        }
    }
    false
}

// 2 at least one faulted connection, 3 no connections, 6 at least one in run, 7 all idle.
#[tactic(auto, using(std::proofs::lemmas::Bool::Decides::nat_tests, crate::specs::Status::table_long, crate::specs::Status::fault_is), unfolding(rules::specs::Objects::extended_status))]
pub fn extended_status(s: &[u8]) -> u16
    requires { Passed s.now }
    ensures { (result ≡ extended_status (view s.now)) × (result < 16) }
{
    if state_layout::faulty(s) {
        2
    } else if base_cells::u16_at(s, state_layout::CONNECTIONS) == 0 {
        3
    } else if is_running(s) {
        6
    } else {
        7
    }
}

// Owned is bit 0, the extended device status bits 4 to 7.
#[tactic(auto, using(std::proofs::lemmas::Bool::Decides::nat_tests), unfolding(rules::specs::Objects::identity_status))]
pub fn identity_status(s: &[u8]) -> u16
    requires { Passed s.now }
    ensures { result ≡ identity_status (view s.now) }
{
    u16::from(is_owned(s)) + 16 * extended_status(s)
}
