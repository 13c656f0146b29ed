// Tests of a connection's row on the numbers that they need, and searches along the rows in use.
#![tactic(auto)]

ghost use Rattle.std.specs.Prelude.{◌≡◌, ◌≤◌, ◌<◌, length};
ghost use Rattle.base_tables.specs.Tables.{rows};
ghost use Rattle.rules.specs.Lists.{place, any};
ghost use Rattle.rules.specs.Removal.{in_stream, feeds, expired, conn_triad};
ghost use Rattle.state_rules.specs.Rows.{conn_at, conns_in};
ghost use Rattle.state_rules.specs.Places.{table_size};

use base_ids::{ToId, Triad};

// ---- tests of a row, on the numbers that they need

// A multicast connection of the T→O id.
fn in_stream_at(r: &[u8], i: usize, id: ToId) -> bool
    requires { (i < 32) × (table_size ≤ length r.now) }
    ensures { result ≡ in_stream id (conn_at r.now i) }
{
    state_fields::multicast_at(r, i) && state_fields::toid_at(r, i) == id
}

// Such a one that is not listen-only.
fn feeds_at(r: &[u8], i: usize, id: ToId) -> bool
    requires { (i < 32) × (table_size ≤ length r.now) }
    ensures { result ≡ feeds id (conn_at r.now i) }
{
    in_stream_at(r, i, id) && !state_fields::listens_at(r, i)
}

fn has_triad_at(r: &[u8], i: usize, t: Triad) -> bool
    requires { (i < 32) × (table_size ≤ length r.now) }
    ensures { result ≡ conn_triad t (conn_at r.now i) }
{
    state_fields::triad_at(r, i) == t
}

fn expired_at(r: &[u8], i: usize, time: u64) -> bool
    requires { (i < 32) × (table_size ≤ length r.now) }
    ensures { result ≡ expired time (conn_at r.now i) }
{
    state_fields::until_at(r, i) < time
}

// ---- whether any has expired

// Every row is asked and none is left out, so the loop has no jump, as `any` would have, which leaves at the first.
pub fn any_expired(r: &[u8], n: usize, time: u64) -> bool
    requires { (n ≤ 32) × (table_size ≤ length r.now) }
    ensures { result ≡ any (expired time) (conns_in n r.now) }
{
    let mut found = false;
    for i in 0..n {
        found |= state_fields::until_at(r, i) < time;
    }
    found
}

// ---- searches along the rows in use

pub fn find_triad(r: &[u8], n: usize, t: Triad) -> Option<usize>
    requires { (n ≤ 32) × (table_size ≤ length r.now) }
    ensures { result ≡ place (conn_triad t) (conns_in n r.now) }
{
    (0..n).find(|&i| has_triad_at(r, i, t))
}

pub fn find_expired(r: &[u8], n: usize, time: u64) -> Option<usize>
    requires { (n ≤ 32) × (table_size ≤ length r.now) }
    ensures { result ≡ place (expired time) (conns_in n r.now) }
{
    (0..n).find(|&i| expired_at(r, i, time))
}

pub fn find_stream(r: &[u8], n: usize, id: ToId) -> Option<usize>
    requires { (n ≤ 32) × (table_size ≤ length r.now) }
    ensures { result ≡ place (in_stream id) (conns_in n r.now) }
{
    (0..n).find(|&i| in_stream_at(r, i, id))
}

pub fn find_feeder(r: &[u8], n: usize, id: ToId) -> Option<usize>
    requires { (n ≤ 32) × (table_size ≤ length r.now) }
    ensures { result ≡ place (feeds id) (conns_in n r.now) }
{
    (0..n).find(|&i| feeds_at(r, i, id))
}
