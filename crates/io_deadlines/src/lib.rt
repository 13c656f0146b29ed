// The next deadline: the least of producing due times and receive time plus timeout.
#![tactic(auto)]

ghost use Rattle.std.specs.Prelude.{◌≡◌, ℕ, ◌+◌, ◌*◌, ◌<◌, ◌≤◌, length, Some};
ghost use Rattle.rules.specs.Answers.{outcome_number};
ghost use Rattle.rules.specs.Removal.{deadline_of, deadline, deadline_answer};
ghost use Rattle.state_rules.specs.Rows.{conn_at, conns_in};
ghost use Rattle.state_rules.specs.Places.{table_size};
ghost use Rattle.state_image.specs.Holds.{Ready};
ghost use Rattle.io_deadlines.specs.Reading.{Answers};

use rules::No;

// The due number is 0 for never: one less wraps to the largest number, and no jump is needed.
fn row_deadline(r: &[u8], i: usize) -> u64
    requires { (i < 32) × (table_size ≤ length r.now) }
    ensures { result ≡ deadline_of (conn_at r.now i) }
{
    let until = state_fields::until_at(r, i);
    let due = state_fields::due_number_at(r, i);
    until.min(due.wrapping_sub(1))
}

fn least(r: &[u8], n: usize) -> u64
    requires { (0 < n) × (n ≤ 32) × (table_size ≤ length r.now) }
    ensures { deadline (conns_in n r.now) ≡ Some result }
{
    let mut m = row_deadline(r, 0);
    for i in 1..n {
        m = m.min(row_deadline(r, i));
    }
    m
}

// The answer of a state that passed its test, with the time in the output's first 8 bytes.
pub fn next_deadline(s: &[u8], out: &mut [u8]) -> Result<u16, No>
    requires { Ready s.now }
    ensures { Answers deadline_answer s.now out.old (outcome_number result) out.new }
{
    let n = base_cells::u16_at(s, state_layout::CONNECTIONS) as usize;
    if n == 0 {
        return Err(No::NothingThere);
    }
    if out.len() < 8 {
        return Err(No::NoRoom);
    }
    base_cells::put_u64(
        out,
        0,
        least(&s[state_layout::TABLE..state_layout::EVENTS], n),
    );
    Ok(8)
}
