// The table, a case to a line: a word, of which the first letter counts, three numbers, and the name that the report has for it. A case
// with - for a name is a step towards the next, and says nothing.
use crate::calls;
use crate::calls::Lent;
use std::io;

#[derive(Clone, Copy)]
pub struct Case<'a> {
    pub letter: u8,
    pub a: u64,
    pub b: u64,
    pub c: u64,
    pub name: &'a [u8],
}

// The number that a column has; a blank is passed over, and what is no digit counts by its low half byte.
fn number(column: &[u8]) -> u64 {
    column.iter().filter(|c| **c != b' ').fold(
        0,
        |n, c| n % 1152921504606846976 * 10 + u64::from(*c % 16),
    )
}

// The case of a line; none where it is too short for one, as behind the last line.
fn case_of(line: &[u8]) -> Option<Case<'_>> {
    let name = line.get(54..)?;
    Some(Case {
        letter: line[0],
        a: number(&line[12..32]),
        b: number(&line[32..44]),
        c: number(&line[44..52]),
        name,
    })
}

// A byte of the block of the next setup, or of the state.
fn put(s: &mut [u8], at: usize, v: u64) {
    if let Some(byte) = s.get_mut(at) {
        *byte = (v % 256) as u8;
    }
}

// The number of 32 bits at a place, as far as it counts below a bound.
fn number_at(s: &[u8], at: usize, below: u64) -> Option<u64> {
    let bytes = s.get(at..)?.first_chunk::<4>()?;
    u64::from(u32::from_le_bytes(*bytes)).checked_rem(below)
}

fn say_number(rt: &impl Print, name: &[u8], number: Option<u64>) -> io::Result<()> {
    let Some(n) = number else {
        return Ok(());
    };
    rt.write_all(name)?;
    println!(rt; ": 0x{n:08x}")
}

fn say_case(rt: &impl Print, case: Case<'_>, lent: &mut Lent) -> io::Result<()> {
    let Case { a, b, c, name, .. } = case;
    let at = a as usize;
    // where a field stands in a row of the table
    let field = state_layout::TABLE + c as usize % 32 * state_layout::ROW + at % state_layout::ROW;
    match case.letter {
        b'#' => {}
        b'c' => put(&mut lent.block, at, b),
        b'r' => put(&mut lent.state, field, b),
        b'n' => say_number(rt, name, number_at(&lent.state, field, b))?,
        b'l' => say_number(rt, name, number_at(&lent.out, at, b))?,
        b'w' => calls::say_wanted(rt, name, &lent.out)?,
        _ => lent.say(rt, case)?,
    }
    Ok(())
}

pub fn say_all(rt: &impl Print, table: &[u8]) -> io::Result<()> {
    let mut lent = Lent {
        state: [0; 109056],
        block: [0; 192],
        out: [0; 1184],
    };
    for line in table.split(|c| *c == b'\n') {
        if let Some(case) = case_of(line) {
            say_case(rt, case, &mut lent)?;
        }
    }
    Ok(())
}
