// What receive decides: whom a frame is for, whether it is newer, whether it has a CIP sequence, and whether that was the last one.
#![tactic(auto)]

ghost use Rattle.std.specs.Prelude.{◌≡◌, ◌&&◌, ◌||◌, ◌+◌, ◌≤◌, ◌<◌, eqb, leb, length};
ghost use Rattle.rules.specs.Lists.{place};
ghost use Rattle.rules.specs.State.{is_owner};
ghost use Rattle.rules.specs.Receiving.{newer};
ghost use Rattle.state_rules.specs.Rows.{conn_at, conns_in};
ghost use Rattle.io_hearing.specs.Decisions.{hears, id_in_four, place_from};
ghost use Rattle.state_rules.specs.Places.{table_size};

use base_ids::OtId;
use rules::{Heard, Kind};

fn is_for(r: &[u8], i: usize, id: OtId, from: u32) -> bool
    requires { (i < 32) × (table_size ≤ length r.now) }
    ensures { result ≡ hears id from (conn_at r.now i) }
{
    state_fields::otid_at(r, i) == id && state_fields::originator_at(r, i) == from
}

// Whether one of the four rows from i on has the O→T id: all four are looked at, and `|` has no jump.
fn any_of_four(r: &[u8], i: usize, id: OtId) -> bool
    requires { (i + 4 ≤ 32) × (table_size ≤ length r.now) }
    ensures { result ≡ id_in_four id r.now i }
{
    let a = state_fields::otid_at(r, i);
    let b = state_fields::otid_at(r, i + 1);
    let c = state_fields::otid_at(r, i + 2);
    let d = state_fields::otid_at(r, i + 3);
    ((a.0 == id.0) | (b.0 == id.0)) | ((c.0 == id.0) | (d.0 == id.0))
}

// The first row from a start on that the frame is for.
fn find_from(r: &[u8], start: usize, n: usize, id: OtId, from: u32) -> Option<usize>
    requires { (start ≤ n) × (n ≤ 32) × (table_size ≤ length r.now) }
    ensures { result ≡ place_from id from n r.now start }
{
    (start..n).find(|&i| is_for(r, i, id, from))
}

// Four rows at once are passed over, up to the first four of which one has the id: for speed, a jump for four rows.
pub fn find(r: &[u8], n: usize, id: OtId, from: u32) -> Option<usize>
    requires { (n ≤ 32) × (table_size ≤ length r.now) }
    ensures { result ≡ place (hears id from) (conns_in n r.now) }
{
    let mut i = 0;
    while i + 4 <= n {
        if any_of_four(r, i, id) {
            return find_from(r, i, n, id, from);
        }
        i += 4;
    }
    find_from(r, i, n, id, from)
}

// The sequence minus the last, modulo 2^32, must be 1 to 0x7FFFFFFF; the first is free.
pub fn is_newer(h: Heard, q: u32) -> bool
    ensures { result ≡ newer h q }
{
    let a = q.wrapping_sub(h.sequence);
    !h.any || (1 <= a && a <= 2147483647)
}

// Whether a CIP sequence is there: an owner alone has one.
pub fn has_cip(k: Kind, d: &[u8]) -> bool
    ensures { result ≡ is_owner k && leb 2 (length d.now) }
{
    state_layout::is_owner(k) && 2 <= d.len()
}

// Whether the last frame had the same CIP sequence.
pub fn repeats(h: Heard, cip: u16) -> bool
    ensures { result ≡ h.anycip && eqb h.cip cip }
{
    h.anycip && h.cip == cip
}
