// Check 11: an output has one owner.
ghost use Rattle.std.specs.Prelude.{◌≡◌, [], ◌≤◌, ◌<◌, length};
ghost use Rattle.std.specs.Result.{result_err};
ghost use Rattle.rules.specs.Lists.{any};
ghost use Rattle.rules.specs.Checks.{owns, owner_check};
ghost use Rattle.state_rules.specs.Rows.{row_at, dec_fixed, fixeds_in};
ghost use Rattle.state_rules.specs.Setups.{setup_from};
ghost use Rattle.state_rules.specs.Places.{setup_size, table_size, assemblies_of};
ghost use Rattle.open_streams.specs.Owning.{roles_with};

use rules::{Kind, Stop};

fn owns_at(t: &[u8], i: usize, output: u8) -> bool
    requires { (i < 32) × (table_size ≤ length t.now) }
    ensures { result ≡ owns output (dec_fixed (row_at t.now i)) }
{
    state_fields::owns_at(t, i) && state_fields::output_at(t, i) == output
}

fn owned(t: &[u8], n: usize, output: u8) -> bool
    requires { (n ≤ 32) × (table_size ≤ length t.now) }
    ensures { result ≡ any (owns output) (fixeds_in n t.now) }
{
    for i in 0..n {
        if owns_at(t, i, output) {
            return true;
        }
    }
    false
}

// Check 11, from the setup's region and the table's.
#[tactic(auto, unfolding(rules::specs::Checks::must, rules::specs::Checks::owner_check, state_records::specs::Shapes::shape_of))]
pub fn owner(r: &[u8], t: &[u8], n: usize, kind: Kind, output: u8) -> Result<(), Stop>
    requires { (setup_size ≤ length r.now) × (assemblies_of r.now ≤ 16) × (n ≤ 32) × (table_size ≤ length t.now) }
    ensures { result_err result ≡ owner_check (setup_from r.now []) (roles_with kind 0 output) (fixeds_in n t.now) }
{
    if state_layout::is_owner(kind) && owned(t, n, output) {
        return Err(Stop::Owned(state_records::instance_of(r, output)));
    }
    Ok(())
}
