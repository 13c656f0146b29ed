// The decision of an open: the thirteen checks of chapter 6 in their order, over the lent state. The first that does not hold stops the open;
// where all hold the plan says what the open comes to. Nothing is changed here.
#![tactic(auto)]

ghost use Rattle.std.specs.Prelude.{◌≡◌, true, []};
ghost use Rattle.rules.specs.State.{fixeds};
ghost use Rattle.rules.specs.Checks.{verdict};
ghost use Rattle.state_rules.specs.Rows.{fixeds_in};
ghost use Rattle.state_rules.specs.Setups.{setup_from};
ghost use Rattle.state_rules.specs.Image.{view, tested};
ghost use Rattle.open_deciding.specs.Decided.{Regions};

use open_checking::{key, request};
use open_roles::sizes;
use open_streams::{joining, owning, table};
use rules::{Plan, Stop};
use wire_rules::{ConnectionPath, ForwardOpen};

// All thirteen, from the setup's region and the table's.
#[tactic(auto, unfolding(rules::specs::Checks::verdict, rules::specs::Checks::path_check, rules::specs::Checks::owner_check))]
fn decide(
    r: &[u8],
    t: &[u8],
    n: usize,
    o: ForwardOpen,
    answer: Result<ConnectionPath, usize>,
) -> Result<Plan, Stop>
    requires { Regions r.now t.now n }
    ensures { result ≡ verdict (setup_from r.now []) (fixeds_in n t.now) o answer }
{
    request::transport(o)?;
    let p = answer.map_err(Stop::PathBroken)?;
    request::unbarred(p)?;
    key::key(r, p)?;
    let roles = open_roles::resolve(r, p)?;
    sizes::config(r, p, roles)?;
    request::rpi(r, o)?;
    request::types(o)?;
    sizes::ot_size(r, o, roles)?;
    sizes::to_size(r, o, roles)?;
    table::triad(t, n, o)?;
    owning::owner(r, t, n, roles.kind, roles.output)?;
    let stream = joining::stream_of(t, n, o, roles.kind, roles.input);
    joining::stream_check(o, roles.kind, stream)?;
    table::room(n)?;
    Ok(Plan {
        kind: roles.kind,
        input: roles.input,
        output: roles.output,
        stores: if p.datalen == 0 { None } else { roles.config },
        stream,
    })
}

// What a lent state that passed the test decides of an open.
pub fn verdict(
    s: &[u8],
    o: ForwardOpen,
    answer: Result<ConnectionPath, usize>,
) -> Result<Plan, Stop>
    requires { tested s.now ≡ true }
    ensures { result ≡ verdict (view s.now).setup (fixeds (view s.now).table) o answer }
{
    let n = base_cells::u16_at(s, state_layout::CONNECTIONS) as usize;
    decide(
        &s[0..state_layout::SETUP_SIZE],
        &s[state_layout::TABLE..state_layout::EVENTS],
        n,
        o,
        answer,
    )
}
