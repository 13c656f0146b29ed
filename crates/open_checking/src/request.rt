// The checks that read the request and no more than the setup's numbers: 1, 2, 6 and 7.
ghost use Rattle.std.specs.Prelude.{◌≡◌, [], ◌&&◌, not, ◌≤◌, leb, length};
ghost use Rattle.std.specs.Result.{result_err};
ghost use Rattle.rules.specs.declared.Stop.TheVariants.{PathBarred};
ghost use Rattle.rules.specs.Checks.{must, transport_check, rpi_check, is_point, is_multicast, type_check};
ghost use Rattle.state_rules.specs.Setups.{setup_from};
ghost use Rattle.state_rules.specs.Places.{setup_size};

use rules::Stop;
use wire_rules::{ConnectionPath, ForwardOpen, NetType};

// Check 1.
#[tactic(auto, unfolding(rules::specs::Checks::must, rules::specs::Checks::transport_check))]
pub fn transport(o: ForwardOpen) -> Result<(), Stop>
    ensures { result_err result ≡ transport_check o }
{
    if !wire_numbers::transport_ok(o.transport) {
        return Err(Stop::Transport(o.transport));
    }
    Ok(())
}

// Check 2, of a path that has parsed.
#[tactic(auto, unfolding(rules::specs::Checks::must))]
pub fn unbarred(p: ConnectionPath) -> Result<(), Stop>
    ensures { result_err result ≡ must (not p.barred) PathBarred }
{
    if p.barred {
        return Err(Stop::PathBarred);
    }
    Ok(())
}

// Check 6.
#[tactic(auto, unfolding(rules::specs::Checks::must, rules::specs::Checks::and_then, rules::specs::Checks::rpi_check))]
pub fn rpi(r: &[u8], o: ForwardOpen) -> Result<(), Stop>
    requires { setup_size ≤ length r.now }
    ensures { result_err result ≡ rpi_check (setup_from r.now []) o }
{
    let min = base_cells::u32_at(r, 28);
    let max = base_cells::u32_at(r, 32);
    if !(min..=max).contains(&o.ot.rpi) {
        return Err(Stop::OtRpi {
            found: o.ot.rpi,
            min,
            max,
        });
    }
    if !(min..=max).contains(&o.to.rpi) {
        return Err(Stop::ToRpi {
            found: o.to.rpi,
            min,
            max,
        });
    }
    Ok(())
}

fn is_point(n: NetType) -> bool
    ensures { result ≡ is_point n }
{
    matches!(n, NetType::PointToPoint)
}

pub fn is_multicast(n: NetType) -> bool
    ensures { result ≡ is_multicast n }
{
    matches!(n, NetType::Multicast)
}

// Check 7.
#[tactic(auto, unfolding(rules::specs::Checks::must, rules::specs::Checks::and_then, rules::specs::Checks::type_check))]
pub fn types(o: ForwardOpen) -> Result<(), Stop>
    ensures { result_err result ≡ type_check o }
{
    let ot = o.ot.params.net;
    if !is_point(ot) {
        return Err(Stop::OtType(ot));
    }
    let to = o.to.params.net;
    if !is_point(to) && !is_multicast(to) {
        return Err(Stop::ToType(to));
    }
    Ok(())
}
