// Frames: as our own writer makes them, and lists of items.
use crate::cases;
use base_ids::ToId;
use std::io;
use wire_rules::IoFrame;

pub fn say_frame(rt: &impl Print, name: &[u8], frame: &[u8]) -> io::Result<()> {
    cases::say_input(rt, name, frame)?;
    match wire_items::decode_io(frame) {
        IoFrame::Io {
            id: _,
            sequence: _,
            start,
            len,
        } => println!(rt; "an I/O frame, its payload of {len} bytes at {start}"),
        IoFrame::NotIo => println!(rt; "not an I/O frame"),
        IoFrame::Broken(o) => println!(rt; "broken at {o}"),
    }
}

// The frame that carries the data, as our own writer makes it.
pub fn say_data(rt: &impl Print, name: &[u8], data: &[u8]) -> io::Result<()> {
    let mut room = [0u8; 65600];
    match wire_frames::encode_io(&mut room, ToId(1), 2, 3, data) {
        Some(n) => match room.get(..n) {
            Some(frame) => say_frame(rt, name, frame),
            None => Ok(()),
        },
        None => println!(rt; "no frame carries data of {}", data.len()),
    }
}

pub fn say_items(rt: &impl Print, name: &[u8], frame: &[u8]) -> io::Result<()> {
    cases::say_input(rt, name, frame)?;
    match wire_items::check_items(frame) {
        Ok(()) => println!(rt; "a list of items")?,
        Err(o) => println!(rt; "broken at {o}")?,
    }
    say_frame(rt, b"the same frame", frame)
}
