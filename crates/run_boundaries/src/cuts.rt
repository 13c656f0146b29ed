// A path segment, cut at every byte.
use crate::cases;
use std::io;
use wire_rules::{Seg, SegStep};

fn say_segment(rt: &impl Print, s: Seg) -> io::Result<()> {
    match s {
        Seg::Port { port, start, len } => {
            println!(rt; "port {port}, link of {len} bytes at {start}")
        }
        Seg::Class(v) => println!(rt; "class {v}"),
        Seg::Instance(v) => println!(rt; "instance {v}"),
        Seg::Point(v) => println!(rt; "point {v}"),
        Seg::Attribute(v) => println!(rt; "attribute {v}"),
        Seg::Keyed(k) => println!(rt;
            "key, vendor {}, device {}, product {}, revision {}.{}",
            k.vendor, k.device, k.product, k.major, k.minor
        ),
        Seg::Data { start, len } => println!(rt; "data of {len} bytes at {start}"),
    }
}

fn say_cut(rt: &impl Print, name: &[u8], path: &[u8]) -> io::Result<()> {
    cases::say_input(rt, name, path)?;
    match wire_segments::next_segment(path, 0) {
        SegStep::Segment { seg, next: _ } => say_segment(rt, seg),
        SegStep::End => println!(rt; "the end"),
        SegStep::Broken(o) => println!(rt; "broken at {o}"),
    }
}

pub fn say_cuts(rt: &impl Print, name: &[u8], path: &[u8]) -> io::Result<()> {
    for n in 0..=path.len() {
        say_cut(rt, name, &path[..n])?;
    }
    Ok(())
}
