// The table, a case to a line: a word, of which the first letter counts, four numbers, and the name that the report has for it. A case
// with - for a name is a step towards the next, and says nothing.
use crate::lent::Lent;
use crate::tally;
use std::io;

#[derive(Clone, Copy)]
pub struct Case<'a> {
    pub letter: u8,
    pub a: u64,
    pub b: u64,
    pub c: u64,
    pub d: u64,
    pub name: &'a [u8],
}

// The number that a column has; a blank is passed over, and what is no digit counts by its low half byte.
fn number(column: &[u8]) -> u64 {
    column.iter().filter(|c| **c != b' ').fold(
        0,
        |n, c| n % 1152921504606846976 * 10 + u64::from(*c % 16),
    )
}

// The case of a line; none where it is too short for one, as behind the last line.
fn case_of(line: &[u8]) -> Option<Case<'_>> {
    let name = line.get(58..)?;
    Some(Case {
        letter: line[0],
        a: number(&line[12..32]),
        b: number(&line[32..40]),
        c: number(&line[40..48]),
        d: number(&line[48..56]),
        name,
    })
}

// The first n bytes.
fn say_bytes(rt: &impl Print, name: &[u8], s: &[u8], n: usize) -> io::Result<()> {
    rt.write_all(name)?;
    print!(rt; ":")?;
    for byte in s.iter().take(n) {
        print!(rt; " {byte}")?;
    }
    println!(rt; "")
}

fn say_case(rt: &impl Print, case: Case<'_>, lent: &mut Lent) -> io::Result<()> {
    match case.letter {
        b'#' => {}
        b'p' => lent.put(case.a as usize, case.b),
        b'b' => lent.begin(rt, case)?,
        b't' => tally::say(rt, case, &mut lent.state)?,
        b'l' => say_bytes(rt, case.name, &lent.out, case.a as usize)?,
        _ => lent.say(rt, case)?,
    }
    Ok(())
}

pub fn say_all(rt: &impl Print, table: &[u8]) -> io::Result<()> {
    let mut lent = Lent::new();
    for line in table.split(|c| *c == b'\n') {
        if let Some(case) = case_of(line) {
            say_case(rt, case, &mut lent)?;
        }
    }
    Ok(())
}
