// The checks that need the sizes of the assemblies which the points came to: 5, 8 and 9.
ghost use Rattle.std.specs.Prelude.{◌≡◌, [], true, ◌+◌, ◌≤◌, length};
ghost use Rattle.std.specs.Result.{result_err};
ghost use Rattle.rules.specs.State.{shape_at};
ghost use Rattle.rules.specs.declared.Stop.TheVariants.{OwnerSize, HeartbeatSize};
ghost use Rattle.rules.specs.Checks.{must, size_ok, beat_size, config_check, ot_size_check, to_size_check};
ghost use Rattle.state_rules.specs.Setups.{setup_from, good_shapes};
ghost use Rattle.state_rules.specs.Places.{setup_size, assemblies_of};

use rules::{Kind, Roles, Stop};
use wire_rules::{ConnectionPath, ForwardOpen, NetParams};

// A place past the list has size 0.
fn size_in(r: &[u8], i: u8) -> u16
    requires { (setup_size ≤ length r.now) × (assemblies_of r.now ≤ 16) × (good_shapes r.now ≡ true) }
    ensures { (result ≡ (shape_at (setup_from r.now []) i).size) × (result ≤ 512) }
{
    if i < base_cells::u8_at(r, 0) {
        state_layout::size_at(r, i as usize)
    } else {
        0
    }
}

// Check 5.
#[tactic(auto, unfolding(rules::specs::Checks::must, rules::specs::Checks::config_check))]
pub fn config(r: &[u8], p: ConnectionPath, roles: Roles) -> Result<(), Stop>
    requires { (setup_size ≤ length r.now) × (assemblies_of r.now ≤ 16) × (good_shapes r.now ≡ true) }
    ensures { result_err result ≡ config_check (setup_from r.now []) p roles }
{
    if p.datalen == 0 {
        return Ok(());
    }
    let i = roles.config.ok_or(Stop::NoConfig { length: p.datalen })?;
    let size = size_in(r, i);
    if size as usize != p.datalen {
        return Err(Stop::ConfigLength {
            found: p.datalen,
            size,
        });
    }
    Ok(())
}

// Equal, or less if variable.
fn fits(n: NetParams, wanted: u16) -> bool
    ensures { result ≡ size_ok n wanted }
{
    n.size == wanted as u32 || n.variable && n.size <= wanted as u32
}

#[tactic(auto, unfolding(rules::specs::Checks::must))]
fn owner_size(r: &[u8], n: NetParams, i: u8) -> Result<(), Stop>
    requires { (setup_size ≤ length r.now) × (assemblies_of r.now ≤ 16) × (good_shapes r.now ≡ true) }
    ensures { result_err result ≡ must (size_ok n ((shape_at (setup_from r.now []) i).size + 6)) (OwnerSize n.size ((shape_at (setup_from r.now []) i).size + 6)) }
{
    let wanted = size_in(r, i) + 6;
    if !fits(n, wanted) {
        return Err(Stop::OwnerSize {
            found: n.size,
            wanted,
        });
    }
    Ok(())
}

#[tactic(auto, unfolding(rules::specs::Checks::must))]
fn heartbeat_size(n: u32) -> Result<(), Stop>
    ensures { result_err result ≡ must (beat_size n) (HeartbeatSize n) }
{
    if !matches!(n, 0 | 2 | 6) {
        return Err(Stop::HeartbeatSize(n));
    }
    Ok(())
}

// Check 8: run/idle header and CIP sequence before an owner's data.
#[tactic(auto, unfolding(rules::specs::Checks::ot_size_check))]
pub fn ot_size(r: &[u8], o: ForwardOpen, roles: Roles) -> Result<(), Stop>
    requires { (setup_size ≤ length r.now) × (assemblies_of r.now ≤ 16) × (good_shapes r.now ≡ true) }
    ensures { result_err result ≡ ot_size_check (setup_from r.now []) o roles }
{
    match roles.kind {
        Kind::Owner => owner_size(r, o.ot.params, roles.output),
        Kind::InputOnly | Kind::ListenOnly => heartbeat_size(o.ot.params.size),
    }
}

// Check 9: the CIP sequence before the input.
#[tactic(auto, unfolding(rules::specs::Checks::must, rules::specs::Checks::to_size_check))]
pub fn to_size(r: &[u8], o: ForwardOpen, roles: Roles) -> Result<(), Stop>
    requires { (setup_size ≤ length r.now) × (assemblies_of r.now ≤ 16) × (good_shapes r.now ≡ true) }
    ensures { result_err result ≡ to_size_check (setup_from r.now []) o roles }
{
    let wanted = size_in(r, roles.input) + 2;
    if !fits(o.to.params, wanted) {
        return Err(Stop::InputSize {
            found: o.to.params.size,
            wanted,
        });
    }
    Ok(())
}
