// The calls of a file, one behind the other: each is 56 bytes of numbers, then the bytes passed in, the EDS, and the bytes written.
// host/compare/src/record.rs has the places of the numbers.
ghost use Rattle.std.specs.Prelude.{◌+◌, ◌<◌, ◌≤◌, length};

use std::io::Read;

// The longest that a call's output may be.
pub const MAX_ROOM: usize = 17440;

// The names of the calls, by their numbers in a record.
pub const NAMES: [&str; 19] = [
    "none",
    "setup",
    "set_input",
    "output",
    "assembly",
    "open",
    "open_refusal",
    "close",
    "receive",
    "produce",
    "expire",
    "next_deadline",
    "next_event",
    "connections",
    "stats",
    "message",
    "path",
    "request",
    "new_session",
];

// Reads until the buffer is full, the file ends or a read fails, and says how many bytes that were: std's read_exact says no count where the
// file ends early.
fn read_full(file: &mut impl Read, buf: &mut [u8]) -> usize
    ensures { result ≤ length buf.new }
{
    let mut done: usize = 0;
    while done < buf.len() {
        let n = file.read(&mut buf[done..]).unwrap_or(0);
        if n == 0 {
            break;
        }
        done += n;
    }
    done
}

// A recorded call: its numbers, the bytes passed in, the EDS, and the bytes written.
#[derive(Clone, Copy)]
pub struct Recorded<'a> {
    pub head: [u8; 56],
    pub bytes: &'a [u8],
    pub eds: &'a [u8],
    pub written: &'a [u8],
}

impl Recorded<'_> {
    // The number of 32 bits at a place.
    pub fn number(&self, at: usize) -> u32
        requires { at + 4 ≤ 56 }
    {
        base_cells::u32_at(&self.head, at)
    }

    pub fn room(&self) -> usize {
        self.number(40) as usize
    }

    pub fn answer(&self) -> u64 {
        base_cells::u64_at(&self.head, 48)
    }
}

// The record that was read last.
#[derive(Drop)]
pub struct Record {
    pub head: [u8; 56],
    rest: [u8; 65480],
}

impl Record {
    pub fn new() -> Record {
        Record {
            head: [0; 56],
            rest: [0; 65480],
        }
    }

    fn len_at(&self, at: usize) -> usize
        requires { at + 4 ≤ 56 }
        ensures { result < 4294967296 }
    {
        base_cells::u32_at(&self.head, at) as usize
    }

    // How many bytes follow the numbers; none where no record has them.
    fn rest_len(&self) -> Option<usize> {
        let room = self.len_at(40);
        let written = self.len_at(44);
        if self.head[0] == 0 || 18 < self.head[0] || MAX_ROOM < room || room < written {
            return None;
        }
        Some(self.len_at(32) + self.len_at(36) + written)
    }

    // Reads the next record of the file, and gives its length; none at the file's end, or why it breaks off.
    pub fn read(&mut self, file: &mut impl Read) -> Result<Option<usize>, &'static str> {
        let n = read_full(file, &mut self.head);
        if n == 0 {
            return Ok(None);
        }
        if n < 56 {
            return Err("the numbers of a call are cut");
        }
        let Some(len) = self.rest_len() else {
            return Err("no call has such numbers");
        };
        let Some(rest) = self.rest.get_mut(..len) else {
            return Err("a call has more bytes than any may have");
        };
        if read_full(file, rest) < len {
            return Err("the bytes of a call are cut");
        }
        Ok(Some(56 + len))
    }

    // The record, as far as its numbers say.
    pub fn parts(&self) -> Option<Recorded<'_>> {
        let (bytes, rest) = self.rest.split_at_checked(self.len_at(32))?;
        let (eds, rest) = rest.split_at_checked(self.len_at(36))?;
        let written = rest.get(..self.len_at(44))?;
        Some(Recorded {
            head: self.head,
            bytes,
            eds,
            written,
        })
    }
}
