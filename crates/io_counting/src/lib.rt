// What is due, counted before anything is written: its bytes, its packets, and how late they are.
#![tactic(auto)]

ghost use Rattle.std.specs.Prelude.{◌≡◌, ◌+◌, ◌<◌, ◌≤◌, length};
ghost use Rattle.base_cells.specs.Numbers.{le};
ghost use Rattle.rules.specs.Lists.{any};
ghost use Rattle.rules.specs.Producing.{due};
ghost use Rattle.state_rules.specs.Places.{table_size, connections_of};
ghost use Rattle.state_rules.specs.Rows.{conns_in};
ghost use Rattle.state_image.specs.Holds.{Ready, Slotted};
ghost use Rattle.io_counting.specs.Tallies.{limit_of, added, Tallies, Totals};

// What is due: how many bytes and packets, how many of them late, and the greatest lateness that ever was.
#[derive(Clone, Copy)]
pub struct Tally {
    pub need: usize,
    pub count: u64,
    pub late: u64,
    pub worst: u64,
}

// A late limit of 0 means 1,000.
fn late_limit(s: &[u8]) -> u64
    requires { 40 ≤ length s.now }
    ensures { result ≡ limit_of (le 4 s.now 36) }
{
    let n = base_cells::u32_at(s, 36) as u64;
    if n == 0 {
        return 1000;
    }
    n
}

// A packet of n bytes more, late by d; late means the late limit or more.
fn add_packet(k: Tally, n: usize, d: u64, limit: u64) -> Tally
    requires { (k.need ≤ 17440) × (n ≤ 545) × (k.count ≤ 32) × (k.late ≤ 32) }
    ensures { (result.need ≤ k.need + 545) × (result.count ≤ k.count + 1) × (result.late ≤ k.late + 1) × (result ≡ added n d limit k) }
{
    Tally {
        need: k.need + n,
        count: k.count + 1,
        late: k.late + (limit <= d) as u64,
        worst: k.worst.max(d),
    }
}

fn count_row(s: &[u8], i: usize, time: u64, limit: u64, k: Tally) -> Tally
    requires { Ready s.now × Slotted s.now × (i < connections_of s.now) × (k.need ≤ 17440) × (k.count ≤ 32) × (k.late ≤ 32) }
    ensures { (result.need ≤ k.need + 545) × (result.count ≤ k.count + 1) × (result.late ≤ k.late + 1) × Tallies time limit i s.now k result }
{
    let d = state_fields::due_at(&s[state_layout::TABLE..state_layout::EVENTS], i);
    match d {
        None => k,
        Some(t) => {
            if time < t {
                return k;
            }
            let p = io_packets::data_of(
                s,
                state_fields::input_at(&s[state_layout::TABLE..state_layout::EVENTS], i),
            );
            add_packet(k, 33 + p.size, time - t, limit)
        }
    }
}

// Whether any is due, by the least due time of all rows. The due number is 0 for never: one less wraps to the largest number, which
// no time reaches.
pub fn any_due(r: &[u8], n: usize, time: u64) -> bool
    requires { (n ≤ 32) × (table_size ≤ length r.now) × (time < 9223372036854775808) }
    ensures { result ≡ any (due time) (conns_in n r.now) }
{
    let mut m = u64::MAX;
    for i in 0..n {
        m = m.min(state_fields::due_number_at(r, i).wrapping_sub(1));
    }
    m <= time
}

pub fn count_all(s: &[u8], time: u64) -> Tally
    requires { Ready s.now × Slotted s.now }
    ensures { (result.need ≤ 17440) × Totals time s.now result }
{
    let n = base_cells::u16_at(s, state_layout::CONNECTIONS) as usize;
    let limit = late_limit(s);
    let mut k = Tally {
        need: 0,
        count: 0,
        late: 0,
        worst: base_cells::u64_at(s, state_layout::MAX_LATE),
    };
    for i in 0..n {
        k = count_row(s, i, time, limit, k);
    }
    k
}
