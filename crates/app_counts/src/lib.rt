// The counters.
#![tactic(auto)]

ghost use Rattle.std.specs.Prelude.{◌≡◌};
ghost use Rattle.rules.specs.Host.{stats_answer};
ghost use Rattle.state_image.specs.Lift.{lifted_read};
ghost use Rattle.rules.specs.Answers.{outcome_number};
ghost use Rattle.app_answers.specs.Outcomes.{Passed};

use rules::No;

// Packets produced, those of them that were late, and the greatest lateness.
pub fn stats(s: &[u8], out: &mut [u8]) -> Result<u16, No>
    requires { Passed s.now }
    ensures { (outcome_number result, out.new) ≡ lifted_read stats_answer s.now out.old }
{
    if out.len() < 24 {
        return Err(No::NoRoom);
    }
    base_cells::put_u64(out, 0, base_cells::u64_at(s, state_layout::PRODUCED));
    base_cells::put_u64(out, 8, base_cells::u64_at(s, state_layout::LATE));
    base_cells::put_u64(out, 16, base_cells::u64_at(s, state_layout::MAX_LATE));
    Ok(24)
}
