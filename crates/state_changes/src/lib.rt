// Changes in place of a whole lent state that passed the state test: each leaves the bytes of the changed state, whatever state the
// bytes held (Becomes), and keeps the bounds that code goes by (Kept).
#![tactic(auto)]

ghost use Rattle.std.specs.Prelude.{◌≡◌, ℕ, ◌+◌, ◌-◌, ◌≤◌, ◌<◌, length};
ghost use Rattle.rules.specs.State.{with_fault, with_next_id};
ghost use Rattle.state_rules.specs.Rows.{of_due};
ghost use Rattle.state_rules.specs.Places.{connections_of, assemblies_of};
ghost use Rattle.state_image.specs.Holds.{Ready, Becomes, BecomesHeld};
ghost use Rattle.state_image.specs.Kept.{Kept};
ghost use Rattle.state_image.specs.Changes.{heard_as, sent_as, row_added, row_gone, mark_as, BytesBecome, event_pushed, counters_as};

use rules::{Conn, Heard, Sent};

pub fn put_heard(s: &mut [u8], i: usize, h: Heard)
    requires { Ready s.old × (i < connections_of s.old) }
    ensures { Kept (connections_of s.old) s.old s.new × Becomes s.old s.new (heard_as i h) }
{
    state_inplace::put_heard_at(&mut s[state_layout::TABLE..state_layout::EVENTS], i, h);
}

pub fn put_sent(s: &mut [u8], i: usize, x: Sent)
    requires { Ready s.old × (i < connections_of s.old) × (of_due x.due < 18446744073709551616) }
    ensures { Kept (connections_of s.old) s.old s.new × Becomes s.old s.new (sent_as i x) }
{
    state_inplace::put_sent_at(&mut s[state_layout::TABLE..state_layout::EVENTS], i, x);
}

// A connection behind the last.
pub fn add_row(s: &mut [u8], c: Conn)
    requires { Ready s.old × (connections_of s.old < 32) × (of_due c.sent.due < 18446744073709551616) × (c.fixed.input ≤ 31) }
    ensures { Kept (connections_of s.old + 1) s.old s.new × Becomes s.old s.new (row_added c) }
{
    let n = base_cells::u16_at(s, state_layout::CONNECTIONS);
    state_inplace::put_conn_at(
        &mut s[state_layout::TABLE..state_layout::EVENTS],
        n as usize,
        c,
    );
    base_cells::put_u16(s, state_layout::CONNECTIONS, n + 1);
}

// The connection at a place gone: those behind it move down.
pub fn remove_row(s: &mut [u8], i: usize)
    requires { Ready s.old × (i < connections_of s.old) }
    ensures { Kept (connections_of s.old - 1) s.old s.new × BecomesHeld s.old s.new (row_gone i) }
{
    let n = base_cells::u16_at(s, state_layout::CONNECTIONS);
    state_inplace::cut_row(
        &mut s[state_layout::TABLE..state_layout::EVENTS],
        n as usize,
        i,
    );
    base_cells::put_u16(s, state_layout::CONNECTIONS, n - 1);
}

// The two bits of an assembly's mark; the others stay.
pub fn put_mark(s: &mut [u8], i: usize, run: bool, notified: bool)
    requires { Ready s.old × (i < assemblies_of s.old) }
    ensures { Kept (connections_of s.old) s.old s.new × Becomes s.old s.new (mark_as i run notified) }
{
    let old = base_cells::u8_at(s, state_layout::MARKS + i);
    base_cells::put_u8(
        s,
        state_layout::MARKS + i,
        (run as u8) + 2 * (notified as u8) + 4 * (old / 4),
    );
}

// As many bytes over an assembly's.
pub fn put_bytes(s: &mut [u8], i: usize, d: &[u8])
    requires { Ready s.old × (i < assemblies_of s.old) × (length d.now ≤ 512) }
    ensures { Kept (connections_of s.old) s.old s.new × BytesBecome i d.now s.old s.new }
{
    base_copies::copy_in(s, state_layout::DATA + i * state_layout::SLOT, d);
}

// An event's record behind the last; where 1,024 wait, the oldest goes.
pub fn push_event(s: &mut [u8], e: &[u8])
    requires { Ready s.old × (length e.now ≡ 32) }
    ensures { Kept (connections_of s.old) s.old s.new × Becomes s.old s.new (event_pushed e.now) }
{
    let word = base_cells::u32_at(s, state_layout::RING);
    let first = word / 2 % 1024;
    let n = word / 2048;
    if n < 1024 {
        let slot = ((first + n) % 1024) as usize;
        base_copies::copy_in(s, state_layout::EVENTS + slot * 32, e);
        base_cells::put_u32(s, state_layout::RING, word + 2048);
        return;
    }
    base_copies::copy_in(s, state_layout::EVENTS + (first as usize) * 32, e);
    base_cells::put_u32(
        s,
        state_layout::RING,
        n * 2048 + (first + 1) % 1024 * 2 + word % 2,
    );
}

pub fn set_fault(s: &mut [u8], b: bool)
    requires { Ready s.old }
    ensures { Kept (connections_of s.old) s.old s.new × Becomes s.old s.new (with_fault b) }
{
    let word = base_cells::u32_at(s, state_layout::RING);
    base_cells::put_u32(s, state_layout::RING, word / 2 * 2 + b as u32);
}

pub fn set_next_id(s: &mut [u8], v: u32)
    requires { Ready s.old }
    ensures { Kept (connections_of s.old) s.old s.new × Becomes s.old s.new (with_next_id v) }
{
    base_cells::put_u32(s, state_layout::NEXT_ID, v);
}

pub fn set_counters(s: &mut [u8], produced: u64, late: u64, maxlate: u64)
    requires { Ready s.old }
    ensures { Kept (connections_of s.old) s.old s.new × Becomes s.old s.new (counters_as produced late maxlate) }
{
    base_cells::put_u64(s, state_layout::PRODUCED, produced);
    base_cells::put_u64(s, state_layout::LATE, late);
    base_cells::put_u64(s, state_layout::MAX_LATE, maxlate);
}
