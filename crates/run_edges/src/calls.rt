// The calls, by the letter that the table has for each. Connections are input-only, point-to-point.
use crate::cases::Case;
use adapter::app_setup::threshtide_setup;
use adapter::conn_calls::threshtide_expire;
use adapter::io_calls::{threshtide_produce, threshtide_receive};
use adapter::msg_calls::threshtide_message;
use adapter::open_calls::threshtide_open;
use std::{fmt, io};

// A call's answer: a yes with what it counts, or the number for no, and the word that refuses an open.
#[derive(Clone, Copy)]
struct Answer(u64);

impl fmt::Display for Answer {
    fn fmt<W: fmt::Write>(&self, f: &mut fmt::Formatter<W>) -> fmt::Result {
        let counted = self.0 / 256;
        let word = self.0 / 4294967296 % 65536;
        match self.0 % 256 {
            0 => write!(f, "yes, {counted}"),
            5 => write!(f, "No. 5 with the word 0x{word:04x}"),
            no => write!(f, "No. {no}"),
        }
    }
}

// Connection serial by its number, RPI 10,000 both ways; the path is class 4, point 238 (input-only), point 100.
fn open(serial: u8, time: u64, state: &mut [u8], out: &mut [u8]) -> u64 {
    let mut request =
        *b"\x0A\x0E\x00\x00\x00\x00\x00\x70\x00\x00\x00\x00\x02\x00\x03\x00\x00\x00\x00\x00\x00\x00\x10\x27\x00\x00\x02\x40\x10\x27\x00\x00\x06\x40\x01\x03\x20\x04\x2C\xEE\x2C\x64";
    request[10] = serial;
    threshtide_open(
        state, time, 84, &request, 167772161, 167772260, 4294967040, false, 0, 0, 2222, out,
    )
}

// What is lent to the calls: the state, the block of the next setup, and the output.
#[derive(Drop)]
pub struct Lent {
    pub state: [u8; 109056],
    pub block: [u8; 192],
    pub out: [u8; 1184],
}

impl Lent {
    // A case's answer, its third number the room for the output. The first is a time, or the seed of a setup; the second a serial, an
    // attribute of File, or how many bytes the EDS has: none or one.
    fn answer(&mut self, case: Case<'_>) -> u64 {
        let Case { a, b, .. } = case;
        let n = (b % 256) as u8;
        let state = &mut self.state;
        // the C functions' number for an output that is too short
        let Some(out) = self.out.get_mut(..case.c as usize) else {
            return 8;
        };
        let eds: &[u8] = if n == 0 { b"" } else { b"E" };
        let message = [0x0E, 3, 0x20, 0x37, 0x24, 0xC8, 0x30, n];
        match case.letter {
            b'b' => threshtide_setup(state, &self.block, eds, (a % 4294967296) as u32),
            b'o' => open(n, a, state, out),
            b'h' => threshtide_receive(state, a, 167772161, &[0]),
            b'e' => threshtide_expire(state, a),
            b'm' => threshtide_message(state, &mut [0; 8], 0, 0, &message, out),
            _ => threshtide_produce(state, a, out),
        }
    }

    // The call with so much room, its answer, and whether a byte of the state changed; of a message and a packet the next lines tell more.
    pub fn say(&mut self, rt: &impl Print, case: Case<'_>) -> io::Result<()> {
        let before = self.state;
        let answer = Answer(self.answer(case));
        if case.name.len() < 2 {
            return Ok(());
        }
        rt.write_all(case.name)?;
        print!(rt; ": {answer}")?;
        match case.letter {
            b'm' => Ok(()),
            b's' => println!(rt; ""),
            _ if before == self.state => println!(rt; "; no byte of the state changed"),
            _ => println!(rt; "; the state changed"),
        }
    }
}

// Whether the reply is this text as rules 13.18 and 13.19 have it: the reply's head, the language tag, a length byte, the text.
pub fn say_wanted(rt: &impl Print, wanted: &[u8], out: &[u8; 1184]) -> io::Result<()> {
    let n = wanted.len();
    if n > 50 {
        return Ok(());
    }
    let headed = out.starts_with(b"\x8E\x00\x00\x00\x01eng\xDA\x04\x00");
    if headed && usize::from(out[11]) == n && out[12..].starts_with(wanted) {
        println!(rt; "; as wanted, byte by byte")
    } else {
        println!(rt; "; NOT AS WANTED")
    }
}
