// Paths segment by segment, and explicit messages.
use std::io;
use wire_rules::{Key, Object, Seg, SegStep};

fn say_key(rt: &impl Print, k: Key) -> io::Result<()> {
    let compatible = if wire_numbers::compatible(k.major) {
        " or compatible"
    } else {
        ""
    };
    println!(rt;
        "key: vendor 0x{:04x}, device type 0x{:04x}, product code 0x{:04x}, revision {}.{}{compatible}",
        k.vendor,
        k.device,
        k.product,
        wire_numbers::major_of(k.major),
        k.minor
    )
}

fn say_segment(rt: &impl Print, at: usize, s: Seg) -> io::Result<()> {
    print!(rt; "    {at}: ")?;
    match s {
        Seg::Port { port, start, len } => {
            println!(rt; "port {port}, link of {len} bytes at {start}")
        }
        Seg::Class(v) => println!(rt; "class {v} (0x{v:02x})"),
        Seg::Instance(v) => println!(rt; "instance {v} (0x{v:02x})"),
        Seg::Point(v) => println!(rt; "point {v} (0x{v:02x})"),
        Seg::Attribute(v) => println!(rt; "attribute {v} (0x{v:02x})"),
        Seg::Keyed(k) => say_key(rt, k),
        Seg::Data { start, len } => println!(rt; "data of {len} bytes at {start}"),
    }
}

pub fn say_path(rt: &impl Print, path: &[u8]) -> io::Result<()> {
    let mut at: usize = 0;
    for _ in 0..65538 {
        match wire_segments::next_segment(path, at) {
            SegStep::Segment { seg, next } => {
                say_segment(rt, at, seg)?;
                at = next;
            }
            SegStep::End => break,
            SegStep::Broken(o) => {
                return println!(rt; "    does not parse at byte {o} of the path");
            }
        }
    }
    Ok(())
}

fn say_object(rt: &impl Print, o: Option<Object>) -> io::Result<()> {
    match o {
        Some(Object { class, instance }) => {
            print!(rt; "  class 0x{class:02x}, instance {instance}")
        }
        None => print!(rt; "  its path names no object"),
    }
}

fn say_attribute(rt: &impl Print, a: Option<u32>) -> io::Result<()> {
    match a {
        Some(n) => print!(rt; ", attribute {n}"),
        None => print!(rt; ", no attribute"),
    }
}

pub fn say_request(rt: &impl Print, message: &[u8]) -> io::Result<()> {
    match wire_requests::parse_request(message) {
        Ok(r) => {
            println!(rt; "  service 0x{:02x}", r.service)?;
            say_object(rt, r.object)?;
            say_attribute(rt, r.attribute)?;
            println!(rt; ", data from byte {}", r.datastart)
        }
        Err(service) => { println!(rt; "  does not parse (No. 4), service 0x{service:02x}") }
    }
}
