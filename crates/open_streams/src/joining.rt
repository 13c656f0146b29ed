// Check 12, and the stream that a multicast open joins: the first connection that carries its input, where there is one.
ghost use Rattle.std.specs.Prelude.{◌≡◌, ◌≤◌, ◌<◌, length, Some};
ghost use Rattle.std.specs.Result.{result_err};
ghost use Rattle.rules.specs.Lists.{find};
ghost use Rattle.rules.specs.State.{is_listener};
ghost use Rattle.rules.specs.Checks.{stream_found, stream_of};
ghost use Rattle.state_rules.specs.Rows.{row_at, dec_fixed, fixeds_in};
ghost use Rattle.state_rules.specs.Places.{table_size};
ghost use Rattle.open_streams.specs.Owning.{roles_with};
ghost use Rattle.open_streams.specs.Joining.{carries_for, stream_stop};

use open_checking::request;
use rules::{Kind, Stop, Stream};
use wire_rules::ForwardOpen;

fn is_listener(k: Kind) -> bool
    ensures { result ≡ is_listener k }
{
    matches!(k, Kind::ListenOnly)
}

// A multicast connection on the input, not listen-only, and of the RPI unless the open only listens.
fn carries_at(t: &[u8], i: usize, listens: bool, input: u8, rpi: u32) -> bool
    requires { (i < 32) × (table_size ≤ length t.now) }
    ensures { result ≡ carries_for listens input rpi (dec_fixed (row_at t.now i)) }
{
    state_fields::multicast_at(t, i)
        && !state_fields::listens_at(t, i)
        && state_fields::input_at(t, i) == input
        && (listens || state_fields::torpi_at(t, i) == rpi)
}

fn stream_at(t: &[u8], i: usize) -> Stream
    requires { (i < 32) × (table_size ≤ length t.now) }
    ensures { Some result ≡ stream_found (Some (dec_fixed (row_at t.now i))) }
{
    let f = state_rows::fixed_at(t, i);
    Stream {
        toid: f.toid,
        dest: f.dest,
        torpi: f.torpi,
    }
}

fn first_stream(t: &[u8], n: usize, listens: bool, input: u8, rpi: u32) -> Option<Stream>
    requires { (n ≤ 32) × (table_size ≤ length t.now) }
    ensures { result ≡ stream_found (find (carries_for listens input rpi) (fixeds_in n t.now)) }
{
    for i in 0..n {
        if carries_at(t, i, listens, input, rpi) {
            return Some(stream_at(t, i));
        }
    }
    None
}

// The stream that an open of this kind joins.
#[tactic(auto, unfolding(rules::specs::Checks::stream_of))]
pub fn stream_of(t: &[u8], n: usize, o: ForwardOpen, kind: Kind, input: u8) -> Option<Stream>
    requires { (n ≤ 32) × (table_size ≤ length t.now) }
    ensures { result ≡ stream_of o (roles_with kind input 0) (fixeds_in n t.now) }
{
    if !request::is_multicast(o.to.params.net) {
        return None;
    }
    first_stream(t, n, is_listener(kind), input, o.to.rpi)
}

// Check 12, from the stream found.
#[tactic(auto, unfolding(rules::specs::Checks::must, crate::specs::Joining::stream_stop))]
pub fn stream_check(o: ForwardOpen, kind: Kind, stream: Option<Stream>) -> Result<(), Stop>
    ensures { result_err result ≡ stream_stop o kind stream }
{
    if !is_listener(kind) || stream.is_some() {
        Ok(())
    } else if request::is_multicast(o.to.params.net) {
        Err(Stop::NoStream)
    } else {
        Err(Stop::ListenPointToPoint)
    }
}
