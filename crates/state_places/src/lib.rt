// Where an assembly stands in the setup's list, by its kind and its instance.
#![tactic(auto)]

ghost use Rattle.std.specs.Prelude.{◌≡◌, ℕ, ◌≤◌, ◌<◌, length};
ghost use Rattle.rules.specs.Lists.{place};
ghost use Rattle.rules.specs.Checks.{is_at};
ghost use Rattle.rules.specs.Host.{kind_test};
ghost use Rattle.state_rules.specs.Setups.{shape_in, shapes_of};
ghost use Rattle.state_rules.specs.Places.{setup_size, assemblies_of};
ghost use Rattle.state_places.specs.Kinds.{number_of};

use rules::AssemblyKind;

// The number that the rules name a kind by.
pub fn number_of(kind: AssemblyKind) -> u8
    ensures { result ≡ number_of kind }
{
    match kind {
        AssemblyKind::Input => 1,
        AssemblyKind::Output => 2,
        AssemblyKind::Config => 3,
    }
}

fn is_kind(k: AssemblyKind, kind: u8) -> bool
    ensures { result ≡ kind_test kind k }
{
    kind == number_of(k)
}

fn is_at(r: &[u8], i: usize, kind: u8, instance: u32) -> bool
    requires { (i < 16) × (setup_size ≤ length r.now) }
    ensures { result ≡ is_at (kind_test kind) instance (shape_in r.now i) }
{
    is_kind(state_layout::kind_at(r, i), kind)
        && u32::from(state_layout::instance_at(r, i)) == instance
}

// The first assembly of that kind and instance, in the setup's region; none where no kind has the number.
pub fn find(r: &[u8], kind: u8, instance: u32) -> Option<usize>
    requires { (setup_size ≤ length r.now) × (assemblies_of r.now ≤ 16) }
    ensures { result ≡ place (is_at (kind_test kind) instance) (shapes_of r.now) }
{
    let n = usize::from(base_cells::u8_at(r, 0));
    (0..n).find(|&i| is_at(r, i, kind, instance))
}
