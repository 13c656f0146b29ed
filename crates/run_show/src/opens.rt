// Forward Open and Forward Close requests.
use crate::paths;
use base_ids::Triad;
use std::io;
use wire_rules::{NetParams, NetType};

// What is said of an open and of a close that does not parse.
const UNPARSED: &str =
    "  does not parse (No. 4): it ends before its path does, or it is over 65,536 bytes";

fn net_name(net: NetType) -> &'static str {
    match net {
        NetType::Null => "null",
        NetType::Multicast => "multicast",
        NetType::PointToPoint => "point-to-point",
        NetType::Reserved => "reserved type",
    }
}

fn say_way(rt: &impl Print, name: &str, id: u32, rpi: u32, p: NetParams) -> io::Result<()> {
    let size = p.size;
    let variable = if p.variable { ", variable" } else { "" };
    let net = net_name(p.net);
    println!(rt; "  {name}: id 0x{id:08x}, RPI {rpi} us, size {size}{variable}, {net}")
}

fn say_triad(rt: &impl Print, t: Triad) -> io::Result<()> {
    println!(rt;
        "  triad: serial 0x{:04x}, vendor 0x{:04x}, originator 0x{:08x}",
        t.serial, t.vendor, t.originator
    )
}

fn say_transport(rt: &impl Print, t: u8) -> io::Result<()> {
    let judged = if wire_numbers::transport_ok(t) {
        "class 1, bit 7 clear: accepted"
    } else {
        "refused with 0x0103: class 1 with bit 7 clear is accepted"
    };
    println!(rt; "  transport 0x{t:02x} ({judged})")
}

fn say_path_in(rt: &impl Print, request: &[u8], start: usize, len: usize) -> io::Result<()> {
    let Some(path) = request.get(start..).and_then(|rest| rest.get(..len)) else {
        return Ok(());
    };
    println!(rt; "  path of {len} bytes at {start}")?;
    paths::say_path(rt, path)
}

pub fn say_open(rt: &impl Print, request: &[u8], large: bool) -> io::Result<()> {
    match wire_opens::decode_open(request, large) {
        Some(o) => {
            let multiplier = o.multiplier;
            let timeout = wire_numbers::timeout(o.ot.rpi, multiplier);
            say_triad(rt, o.triad)?;
            say_way(rt, "O->T", o.otid.0, o.ot.rpi, o.ot.params)?;
            say_way(rt, "T->O", o.toid.0, o.to.rpi, o.to.params)?;
            println!(rt; "  multiplier {multiplier}, timeout {timeout} us")?;
            say_transport(rt, o.transport)?;
            say_path_in(rt, request, o.path.start, o.path.len)
        }
        None => rt.println(UNPARSED),
    }
}

pub fn say_close(rt: &impl Print, request: &[u8]) -> io::Result<()> {
    match wire_opens::decode_close(request) {
        Some(t) => say_triad(rt, t),
        None => rt.println(UNPARSED),
    }
}
