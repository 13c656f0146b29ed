// An open over a state that passed its test: its path, the checks in their order, and what follows.
ghost use Rattle.std.specs.Prelude.{◌≡◌, true, ◌+◌, ◌≤◌, ◌<◌, length};
ghost use Rattle.wire_rules.specs.ConnectionPath.{path_of};
ghost use Rattle.rules.specs.Checks.{path_in};
ghost use Rattle.rules.specs.Opening.{path_bytes};
ghost use Rattle.state_rules.specs.Image.{tested};
ghost use Rattle.state_image.specs.Lift.{lifted_out};
ghost use Rattle.open_answering.specs.Calls.{config_in, path_call};

use crate::placing;
use rules::Origin;
use wire_rules::{ConnectionPath, ForwardOpen, Place};

// The configuration data in a path that has parsed.
fn config_in(path: &[u8], answer: Result<ConnectionPath, usize>) -> &[u8]
    requires { answer ≡ path_of path.now }
    ensures { (result.now ≡ config_in path.now) × (length result.now ≡ (path_in answer).datalen) }
{
    match answer {
        Ok(p) => &path[p.datastart..p.datastart + p.datalen],
        Err(_) => &[],
    }
}

fn open_path(s: &mut [u8], time: u64, o: ForwardOpen, g: Origin, path: &[u8], out: &mut [u8]) -> u64
    requires { (tested s.old ≡ true) × (time < 9223372036854775808) }
    ensures { (result, (s.new, out.new)) ≡ lifted_out (path_call time o g path.now) s.old out.old }
{
    let answer = wire_paths::parse_path(path);
    match open_deciding::verdict(s, o, answer) {
        Err(stop) => open_refusing::stop_number(stop),
        Ok(p) => placing::accept(s, time, o, g, p, config_in(path, answer), out),
    }
}

// No. 5 with the words of the first check that does not hold; else No. 8 where the reply does not fit; else the connection.
pub fn open_request(
    s: &mut [u8],
    time: u64,
    o: ForwardOpen,
    request: &[u8],
    g: Origin,
    out: &mut [u8],
) -> u64
    requires { (tested s.old ≡ true) × (time < 9223372036854775808) × (o.path.start + o.path.len ≤ length request.now) }
    ensures { (result, (s.new, out.new)) ≡ lifted_out (path_call time o g (path_bytes request.now o)) s.old out.old }
{
    let Place { start, len } = o.path;
    open_path(s, time, o, g, &request[start..start + len], out)
}
