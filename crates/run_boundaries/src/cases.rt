// The table of cases, a line each: what is read (its first letter), how many bytes, those that they begin with in hexadecimal (zeros
// follow), and the name that the report has for them.
ghost use Rattle.std.specs.Prelude.{◌≤◌};

use crate::{cuts, frames, opens};
use std::io;

// '0' to '9' are 0x30 to 0x39, 'A' to 'F' 0x41 to 0x46
fn digit(c: u8) -> usize
    ensures { result ≤ 42 }
{
    usize::from(c % 16 + c / 64 % 4 * 9)
}

// The number that a column has, in digits of this base; a blank is passed over.
fn number(column: &[u8], base: usize) -> usize
    requires { base ≤ 16 }
{
    column
        .iter()
        .filter(|c| **c != b' ')
        .fold(0, |n, c| n % 16777216 * base + digit(*c))
}

// The ten bytes that the input begins with, each of two digits and a space.
fn put_bytes(input: &mut [u8], column: &[u8]) {
    for (byte, [high, low, _]) in input.iter_mut().zip(column.as_chunks::<3>().0) {
        *byte = (number(&[*high, *low], 16) % 256) as u8;
    }
}

fn answer(rt: &impl Print, kind: u8, name: &[u8], input: &[u8]) -> io::Result<()> {
    match kind {
        b's' => opens::say_open(rt, name, input, false),
        b'l' => opens::say_open(rt, name, input, true),
        b'c' => opens::say_close(rt, name, input),
        b'p' => opens::say_path(rt, name, input),
        b'd' => frames::say_data(rt, name, input),
        b'i' => frames::say_items(rt, name, input),
        b'e' => cuts::say_cuts(rt, name, input),
        b't' => opens::say_timeout(rt, name, input),
        _ => Ok(()),
    }
}

// A line of the table is a case; what is too short for one, as behind the last line, is passed over.
fn say_case(rt: &impl Print, line: &[u8], room: &mut [u8]) -> io::Result<()> {
    let Some(name) = line.get(48..) else {
        return Ok(());
    };
    put_bytes(room, &line[17..47]);
    match room.get(..number(&line[8..16], 10)) {
        Some(input) => answer(rt, line[0], name, input),
        None => Ok(()),
    }
}

pub fn say_all(rt: &impl Print, table: &[u8], room: &mut [u8]) -> io::Result<()> {
    for line in table.split(|c| *c == b'\n') {
        say_case(rt, line, room)?;
    }
    Ok(())
}

// The head of a line of the report: what went in.
pub fn say_input(rt: &impl Print, name: &[u8], input: &[u8]) -> io::Result<()> {
    let n = input.len();
    rt.write_all(name)?;
    print!(rt; " of {n} bytes: ")
}
