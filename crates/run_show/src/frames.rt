// An I/O frame: its items, and what the first two say.
use std::io;
use wire_reader::ItemReader;
use wire_rules::{Cursor, IoFrame};

// The items from a cursor on, as far as the list is well formed.
fn say_items(rt: &impl Print, frame: &[u8], first: Cursor) -> io::Result<()> {
    for item in ItemReader::new(frame, first) {
        println!(rt;
            "  item at {}: kind 0x{:04x}, {} bytes",
            item.at, item.kind, item.len
        )?;
    }
    Ok(())
}

fn say_payload(rt: &impl Print, payload: &[u8]) -> io::Result<()> {
    let Some((sequence, rest)) = payload.split_first_chunk::<2>() else {
        return println!(rt; "  no CIP sequence");
    };
    let sequence = u16::from_le_bytes(*sequence);
    let Some((header, data)) = rest.split_first_chunk::<4>() else {
        return println!(rt; "  CIP sequence {sequence}, no header");
    };
    let header = u32::from_le_bytes(*header);
    let run = if header % 2 == 1 { "run" } else { "idle" };
    let n = data.len();
    println!(rt; "  CIP sequence {sequence}, header 0x{header:08x} ({run}), data {n} bytes")
}

pub fn say_frame(rt: &impl Print, frame: &[u8]) -> io::Result<()> {
    match wire_items::begin(frame) {
        Ok(c) => say_items(rt, frame, c)?,
        Err(_) => {}
    }
    match wire_items::decode_io(frame) {
        IoFrame::Io {
            id,
            sequence,
            start,
            len,
        } => {
            let id = id.0;
            println!(rt;
                "  I/O frame: O->T id 0x{id:08x}, sequence {sequence}, payload {len} bytes"
            )?;
            match frame.get(start..).and_then(|rest| rest.get(..len)) {
                Some(payload) => say_payload(rt, payload),
                None => Ok(()),
            }
        }
        IoFrame::NotIo => println!(rt;
            "  a list of items, but no I/O frame: the first two items are not 0x8002 of 8 bytes and 0x00b1, or it is over 65,536 bytes"
        ),
        IoFrame::Broken(o) => println!(rt;
            "  broken at byte {o}: an item or count does not fit, or a spare byte follows the last"
        ),
    }
}
