// The events that were not read.
#![tactic(auto)]

ghost use Rattle.std.specs.Prelude.{◌≡◌};
ghost use Rattle.rules.specs.Host.{next_event_call};
ghost use Rattle.state_image.specs.Lift.{lifted_out};
ghost use Rattle.rules.specs.Answers.{outcome_number};
ghost use Rattle.app_answers.specs.Outcomes.{Passed};

use rules::No;

// The oldest event's record, which leaves the list.
pub fn next_event(s: &mut [u8], out: &mut [u8]) -> Result<u16, No>
    requires { Passed s.old }
    ensures { (outcome_number result, (s.new, out.new)) ≡ lifted_out next_event_call s.old out.old }
{
    let n = state_layout::events_waiting(s);
    if n < 1 {
        return Err(No::NothingThere);
    }
    if out.len() < 32 {
        return Err(No::NoRoom);
    }
    let first = state_layout::first_slot(s);
    let fault = state_layout::faulty(s);
    let a = state_layout::EVENTS + first as usize * 32;
    let e = a + 32;
    base_copies::copy_in(out, 0, &s[a..e]);
    base_cells::put_u32(
        s,
        state_layout::RING,
        (n - 1) * 2048 + (first + 1) % 1024 * 2 + fault as u32,
    );
    Ok(32)
}
