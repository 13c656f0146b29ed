// The new connection, by value.
ghost use Rattle.std.specs.Prelude.{◌≡◌, ◌<◌};
ghost use Rattle.rules.specs.Checks.{asks_multicast};
ghost use Rattle.rules.specs.Opening.{after_id, point_dest, group_dest, side_of, first_due, side_at, new_fixed, new_heard, new_conn};
ghost use Rattle.open_answering.specs.Sides.{side_in};

use base_ids::{OtId, ToId};
use open_checking::request;
use rules::{Conn, Fixed, Heard, Origin, Plan, Sent, Socket, Stream};
use wire_rules::ForwardOpen;

// The T→O side of the new connection, and the next id behind it.
#[derive(Clone, Copy)]
pub struct Side {
    pub toid: ToId,
    pub dest: Socket,
    pub torpi: u32,
    pub next: u32,
}

// Plus one wrapping, 0 skipped.
#[tactic(auto, unfolding(rules::specs::Opening::after_id))]
pub fn after_id(n: u32) -> u32
    ensures { result ≡ after_id n }
{
    if n == u32::MAX { 1 } else { n + 1 }
}

pub fn asks_multicast(o: ForwardOpen) -> bool
    ensures { result ≡ asks_multicast o }
{
    request::is_multicast(o.to.params.net)
}

// The given address, the peer with the given port if that address is 0.0.0.0, or the peer with the I/O port.
#[tactic(auto, unfolding(rules::specs::Opening::point_dest))]
fn point_dest(g: Origin) -> Socket
    ensures { result ≡ point_dest g }
{
    match g.socket {
        None => Socket {
            address: g.peer,
            port: g.ioport,
        },
        Some(Socket { address: 0, port }) => Socket {
            address: g.peer,
            port,
        },
        Some(socket) => socket,
    }
}

#[tactic(auto, unfolding(rules::specs::Opening::group_dest))]
fn group_dest(g: Origin) -> Socket
    ensures { result ≡ group_dest g }
{
    Socket {
        address: wire_numbers::group(g.local, g.mask),
        port: g.ioport,
    }
}

// A joiner takes the stream's id, destination and RPI. An open that sends its own stream draws an id if it is multicast; point-to-point
// uses the originator's.
#[tactic(auto, unfolding(rules::specs::Opening::side_of))]
pub fn side_of(o: ForwardOpen, g: Origin, n: u32, stream: Option<Stream>) -> Side
    ensures { side_in result ≡ side_of o g n stream }
{
    match stream {
        Some(Stream { toid, dest, torpi }) => Side {
            toid,
            dest,
            torpi,
            next: n,
        },
        None if asks_multicast(o) => Side {
            toid: ToId(n),
            dest: group_dest(g),
            torpi: o.to.rpi,
            next: after_id(n),
        },
        None => Side {
            toid: o.toid,
            dest: point_dest(g),
            torpi: o.to.rpi,
            next: n,
        },
    }
}

// A joiner does not produce; otherwise the first packet is due at once.
fn first_due(time: u64, stream: Option<Stream>) -> Sent
    ensures { result ≡ first_due time stream }
{
    Sent {
        sequence: 0,
        cip: 0,
        due: stream.is_none().then_some(time),
    }
}

#[tactic(auto, unfolding(rules::specs::Opening::new_fixed))]
fn new_fixed(o: ForwardOpen, g: Origin, p: Plan, n: u32, side: Side) -> Fixed
    requires { side_in side ≡ side_at o g p n }
    ensures { result ≡ new_fixed o g p n }
{
    Fixed {
        kind: p.kind,
        triad: o.triad,
        originator: g.peer,
        otid: OtId(n),
        toid: side.toid,
        otrpi: o.ot.rpi,
        multiplier: o.multiplier,
        torpi: side.torpi,
        input: p.input,
        output: p.output,
        dest: side.dest,
        multicast: asks_multicast(o),
        local: g.local,
    }
}

// The open time counts as the receive time before any frame.
#[tactic(auto, unfolding(rules::specs::Opening::new_heard))]
fn new_heard(time: u64, o: ForwardOpen) -> Heard
    requires { time < 9223372036854775808 }
    ensures { result ≡ new_heard time o }
{
    Heard {
        until: io_receiving::lives_until(time, o.ot.rpi, o.multiplier),
        any: false,
        sequence: 0,
        anycip: false,
        cip: 0,
    }
}

#[tactic(auto, unfolding(rules::specs::Opening::new_conn))]
pub fn new_conn(time: u64, o: ForwardOpen, g: Origin, p: Plan, n: u32, side: Side) -> Conn
    requires { (time < 9223372036854775808) × (side_in side ≡ side_at o g p n) }
    ensures { result ≡ new_conn time o g p n }
{
    Conn {
        fixed: new_fixed(o, g, p, n, side),
        heard: new_heard(time, o),
        sent: first_due(time, p.stream),
    }
}
