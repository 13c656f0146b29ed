// Opens, closes, whole paths and timeouts.
use crate::cases;
use std::io;

pub fn say_open(rt: &impl Print, name: &[u8], request: &[u8], large: bool) -> io::Result<()> {
    cases::say_input(rt, name, request)?;
    match wire_opens::decode_open(request, large) {
        Some(o) => println!(rt; "an open, its path at {}", o.path.start),
        None => println!(rt; "does not parse"),
    }
}

pub fn say_path(rt: &impl Print, name: &[u8], path: &[u8]) -> io::Result<()> {
    cases::say_input(rt, name, path)?;
    match wire_paths::parse_path(path) {
        Ok(_) => println!(rt; "parses"),
        Err(o) => println!(rt; "does not parse at {o}"),
    }
}

pub fn say_close(rt: &impl Print, name: &[u8], request: &[u8]) -> io::Result<()> {
    cases::say_input(rt, name, request)?;
    match wire_opens::decode_close(request) {
        Some(_) => println!(rt; "a close"),
        None => println!(rt; "does not parse"),
    }
}

// The timeout at a multiplier, of the least RPI that counts and of the greatest.
pub fn say_timeout(rt: &impl Print, name: &[u8], multiplier: &[u8]) -> io::Result<()> {
    let [m] = *multiplier else {
        return Ok(());
    };
    let least = wire_numbers::timeout(1, m);
    let greatest = wire_numbers::timeout(u32::MAX, m);
    rt.write_all(name)?;
    println!(rt;
        " {m}: at RPI 1 the timeout is {least}, at RPI {} {greatest}",
        u32::MAX
    )
}
