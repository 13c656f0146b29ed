// Check 4 of an open, and what its points come to: who the connection serves and the assemblies that it reads and writes, by their
// places in the setup's list. The points are looked up once; sizes.rt has the checks that need what they came to.
#![tactic(auto)]

pub mod sizes;

ghost use Rattle.std.specs.Prelude.{◌≡◌, [], ◌≤◌, length};
ghost use Rattle.std.specs.Result.{result_err};
ghost use Rattle.rules.specs.Host.{kind_test};
ghost use Rattle.rules.specs.Checks.{kind_of, ot_point, to_point, place_of, points_check, roles_of};
ghost use Rattle.state_rules.specs.Setups.{setup_from};
ghost use Rattle.state_rules.specs.Places.{setup_size, assemblies_of};
ghost use Rattle.state_places.specs.Kinds.{number_of};
ghost use Rattle.open_roles.specs.Roles.{config_of, output_of, roles_or};

use rules::{AssemblyKind, Kind, Roles, Stop};
use wire_rules::ConnectionPath;

// O→T is tried as input-only heartbeat, listen-only heartbeat, output assembly.
#[tactic(auto, unfolding(rules::specs::Checks::kind_of))]
pub fn kind_of(r: &[u8], point: u32) -> Kind
    requires { setup_size ≤ length r.now }
    ensures { result ≡ kind_of (setup_from r.now []) point }
{
    let input_only = base_cells::u32_at(r, 20);
    let listen_only = base_cells::u32_at(r, 24);
    if point == input_only {
        Kind::InputOnly
    } else if point == listen_only {
        Kind::ListenOnly
    } else {
        Kind::Owner
    }
}

fn ot_point(p: ConnectionPath) -> u32
    ensures { result ≡ ot_point p }
{
    if p.count == 3 { p.second } else { p.first }
}

fn to_point(p: ConnectionPath) -> u32
    ensures { result ≡ to_point p }
{
    if p.count == 3 { p.third } else { p.second }
}

// The place of the assembly of that kind and instance, of which there are at most 16.
#[tactic(auto, unfolding(rules::specs::Checks::place_of))]
fn place(r: &[u8], kind: AssemblyKind, point: u32) -> Option<u8>
    requires { (setup_size ≤ length r.now) × (assemblies_of r.now ≤ 16) }
    ensures { result ≡ place_of (kind_test (number_of kind)) (setup_from r.now []) point }
{
    let i = state_places::find(r, state_places::number_of(kind), point)?;
    Some(i as u8)
}

fn output(r: &[u8], kind: Kind, point: u32) -> Option<u8>
    requires { (setup_size ≤ length r.now) × (assemblies_of r.now ≤ 16) }
    ensures { result ≡ output_of (setup_from r.now []) kind point }
{
    match kind {
        Kind::Owner => place(r, AssemblyKind::Output, point),
        Kind::InputOnly | Kind::ListenOnly => Some(0),
    }
}

fn config_place(r: &[u8], p: ConnectionPath) -> Option<u8>
    requires { (setup_size ≤ length r.now) × (assemblies_of r.now ≤ 16) }
    ensures { result ≡ config_of (setup_from r.now []) p }
{
    if p.count == 3 {
        place(r, AssemblyKind::Config, p.first)
    } else {
        None
    }
}

// Check 4.
#[tactic(auto, unfolding(rules::specs::Checks::must, rules::specs::Checks::and_then, rules::specs::Checks::points_check, rules::specs::Checks::roles_of))]
pub fn resolve(r: &[u8], p: ConnectionPath) -> Result<Roles, Stop>
    requires { (setup_size ≤ length r.now) × (assemblies_of r.now ≤ 16) }
    ensures check { result_err result ≡ points_check (setup_from r.now []) p }
    ensures roles { roles_or (roles_of (setup_from r.now []) p) result ≡ roles_of (setup_from r.now []) p }
{
    if p.class != Some(4) {
        return Err(Stop::ClassNotFour(p.class));
    }
    if !matches!(p.count, 2 | 3) {
        return Err(Stop::NumberCount(p.count));
    }
    let ot = ot_point(p);
    let kind = kind_of(r, ot);
    let output = output(r, kind, ot).ok_or(Stop::NoOutputPoint(ot))?;
    let to = to_point(p);
    let input = place(r, AssemblyKind::Input, to).ok_or(Stop::NoInputPoint(to))?;
    Ok(Roles {
        kind,
        input,
        output,
        config: config_place(r, p),
    })
}
