// Outputs, and any assembly's data, handed to the application.
#![tactic(auto)]

ghost use Rattle.std.specs.Prelude.{◌≡◌, ◌<◌};
ghost use Rattle.rules.specs.Host.{output_call, assembly_answer};
ghost use Rattle.state_rules.specs.Places.{assemblies_of};
ghost use Rattle.state_image.specs.Lift.{lifted_out, lifted_read};
ghost use Rattle.rules.specs.Answers.{outcome_number};
ghost use Rattle.app_answers.specs.Outcomes.{Passed};
ghost use Rattle.app_answers.specs.Places.{assembly_read_at, output_read_at};

use rules::{AssemblyKind, No};

// The data of the assembly at that place.
fn copy_assembly(s: &[u8], i: usize, out: &mut [u8]) -> Result<u16, No>
    requires { Passed s.now × (i < assemblies_of s.now) }
    ensures { (outcome_number result, out.new) ≡ lifted_read (assembly_read_at i) s.now out.old }
{
    let n = state_layout::size_at(s, i) as usize;
    if out.len() < n {
        return Err(No::NoRoom);
    }
    let a = state_layout::DATA + i * state_layout::SLOT;
    let e = a + n;
    base_copies::copy_in(out, 0, &s[a..e]);
    Ok(n as u16)
}

// An assembly's data; kinds are 1 input, 2 output, 3 configuration.
pub fn assembly(s: &[u8], kind: u8, instance: u32, out: &mut [u8]) -> Result<u16, No>
    requires { Passed s.now }
    ensures { (outcome_number result, out.new) ≡ lifted_read (assembly_answer kind instance) s.now out.old }
{
    let setup = &s[0..state_layout::SETUP_SIZE];
    let Some(i) = state_places::find(setup, kind, instance) else {
        return Err(No::NoAssembly);
    };
    copy_assembly(s, i, out)
}

// Run byte and data of the output at that place; its next change is told again.
fn take_output(s: &mut [u8], i: usize, out: &mut [u8]) -> Result<u16, No>
    requires { Passed s.old × (i < assemblies_of s.old) }
    ensures { (outcome_number result, (s.new, out.new)) ≡ lifted_out (output_read_at i) s.old out.old }
{
    let n = state_layout::size_at(s, i) as usize;
    if out.len() <= n {
        return Err(No::NoRoom);
    }
    let run = state_layout::runs(s, i);
    let a = state_layout::DATA + i * state_layout::SLOT;
    let e = a + n;
    base_cells::put_u8(out, 0, run as u8);
    base_copies::copy_in(out, 1, &s[a..e]);
    state_changes::put_mark(s, i, run, false);
    Ok((n + 1) as u16)
}

pub fn output(s: &mut [u8], instance: u32, out: &mut [u8]) -> Result<u16, No>
    requires { Passed s.old }
    ensures { (outcome_number result, (s.new, out.new)) ≡ lifted_out (output_call instance) s.old out.old }
{
    let setup = &s[0..state_layout::SETUP_SIZE];
    let output = state_places::number_of(AssemblyKind::Output);
    let Some(i) = state_places::find(setup, output, instance) else {
        return Err(No::NoAssembly);
    };
    take_output(s, i, out)
}
