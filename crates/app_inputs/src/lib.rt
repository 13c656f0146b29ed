// Inputs, as the application gives them.
#![tactic(auto)]

ghost use Rattle.std.specs.Prelude.{◌≡◌, ◌+◌, ◌≤◌, ◌<◌, replicate};
ghost use Rattle.std.proofs.lemmas.List.Edits.{sets};
ghost use Rattle.rules.specs.Host.{set_input_call};
ghost use Rattle.state_rules.specs.Places.{assemblies_of};
ghost use Rattle.state_image.specs.Lift.{lifted};
ghost use Rattle.rules.specs.Answers.{outcome_number};
ghost use Rattle.app_answers.specs.Outcomes.{Passed};
ghost use Rattle.app_answers.specs.Places.{input_set_at};

use rules::{AssemblyKind, No};

// The input at that place takes the bytes; the rest of it is zero.
fn fill_input(s: &mut [u8], i: usize, d: &[u8]) -> Result<u16, No>
    requires { Passed s.old × (i < assemblies_of s.old) }
    ensures { (outcome_number result, s.new) ≡ lifted (input_set_at i d.now) s.old }
{
    let n = state_layout::size_at(s, i) as usize;
    let m = d.len();
    if m > n {
        return Err(No::TooLong);
    }
    let a = state_layout::DATA + i * state_layout::SLOT;
    base_copies::copy_in(s, a, d);
    base_cells::zero(s, a + m, n - m);
    Ok(0)
}

pub fn set_input(s: &mut [u8], instance: u32, d: &[u8]) -> Result<u16, No>
    requires { Passed s.old }
    ensures { (outcome_number result, s.new) ≡ lifted (set_input_call instance d.now) s.old }
{
    let setup = &s[0..state_layout::SETUP_SIZE];
    let input = state_places::number_of(AssemblyKind::Input);
    let Some(i) = state_places::find(setup, input, instance) else {
        return Err(No::NoAssembly);
    };
    fill_input(s, i, d)
}
