// Checks 10 and 13: the triad is free, and there is room for one more.
ghost use Rattle.std.specs.Prelude.{◌≡◌, ◌≤◌, ltb, length};
ghost use Rattle.std.specs.Result.{result_err};
ghost use Rattle.rules.specs.declared.Stop.TheVariants.{Full};
ghost use Rattle.rules.specs.Checks.{must, triad_check, max_connections};
ghost use Rattle.state_rules.specs.Rows.{fixeds_in};
ghost use Rattle.state_rules.specs.Places.{table_size};

use rules::Stop;
use wire_rules::ForwardOpen;

// Check 10.
pub fn triad(r: &[u8], n: usize, o: ForwardOpen) -> Result<(), Stop>
    requires { (n ≤ 32) × (table_size ≤ length r.now) }
    ensures { result_err result ≡ triad_check o (fixeds_in n r.now) }
{
    match conn_lookup::find_triad(r, n, o.triad) {
        Some(_) => Err(Stop::TriadInUse),
        None => Ok(()),
    }
}

// Check 13, by the number of connections.
#[tactic(auto, unfolding(rules::specs::Checks::must))]
pub fn room(n: usize) -> Result<(), Stop>
    ensures { result_err result ≡ must (ltb n max_connections) Full }
{
    if n < 32 { Ok(()) } else { Err(Stop::Full) }
}
