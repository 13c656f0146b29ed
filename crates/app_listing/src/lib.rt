// The connections, as the host is told of them.
#![tactic(auto)]

ghost use Rattle.std.specs.Prelude.{◌≡◌, ℕ, ◌+◌, ◌*◌, ◌≤◌, ◌<◌, length};
ghost use Rattle.std.proofs.lemmas.List.Edits.{sets};
ghost use Rattle.rules.specs.Host.{connections_answer};
ghost use Rattle.state_rules.specs.Places.{connections_of};
ghost use Rattle.state_image.specs.Lift.{lifted_read};
ghost use Rattle.state_image.specs.Holds.{Ready};
ghost use Rattle.rules.specs.Answers.{outcome_number};
ghost use Rattle.app_answers.specs.Outcomes.{Passed};
ghost use Rattle.app_listing.specs.Listing.{record_at};

use rules::No;
use state_records::Occasion;

// The record of the connection in row i, behind those of the rows before it.
fn tell(s: &[u8], i: usize, out: &mut [u8])
    requires { Ready s.now × (i < connections_of s.now) × (i * 32 + 32 ≤ length out.old) }
    ensures { out.new ≡ sets out.old (i * 32) (record_at s.now i) }
{
    let f = state_rows::fixed_at(&s[state_layout::TABLE..state_layout::EVENTS], i);
    let start = i * 32;
    state_records::put_record(
        &mut out[start..start + 32],
        Occasion::Listed.number(),
        &s[0..state_layout::SETUP_SIZE],
        f,
    );
}

pub fn connections(s: &[u8], out: &mut [u8]) -> Result<u16, No>
    requires { Passed s.now }
    ensures { (outcome_number result, out.new) ≡ lifted_read connections_answer s.now out.old }
{
    let n = base_cells::u16_at(s, state_layout::CONNECTIONS) as usize;
    if out.len() < n * 32 {
        return Err(No::NoRoom);
    }
    for i in 0..n {
        tell(s, i, out);
    }
    Ok((n * 32) as u16)
}
