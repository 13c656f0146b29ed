// The calls of a file, made again and compared with what is recorded of each.
use crate::calls::Host;
use crate::recorded::{MAX_ROOM, NAMES, Record};
use std::io::Read;
use std::{fmt, io, iter};

// What the lent output is filled with before a call.
const LENT: u8 = 0xA5;

// A byte of the output that is not as recorded.
#[derive(Clone, Copy)]
struct OtherByte {
    at: usize,
    found: u8,
    recorded: u8,
}

// Why a file is not replayed to its end.
#[derive(Clone, Copy)]
enum Trouble {
    Different {
        call: u8,
        found: u64,
        recorded: u64,
        byte: Option<OtherByte>,
    },
    BrokenOff(&'static str),
}

impl From<&'static str> for Trouble {
    fn from(why: &'static str) -> Trouble {
        Trouble::BrokenOff(why)
    }
}

impl fmt::Display for Trouble {
    fn fmt<W: fmt::Write>(&self, f: &mut fmt::Formatter<W>) -> fmt::Result {
        match *self {
            Trouble::Different {
                call,
                found,
                recorded,
                byte,
            } => {
                let name = NAMES[usize::from(call % 19)];
                write!(
                    f,
                    "DIFFERENT: {name} answered 0x{found:02x}, recorded 0x{recorded:02x}"
                )?;
                match byte {
                    Some(
                        OtherByte {
                            at,
                            found,
                            recorded,
                        },
                    ) => write!(
                        f,
                        "; output byte {at} is 0x{found:02x}, recorded 0x{recorded:02x}"
                    ),
                    None => write!(f, "; output as recorded"),
                }
            }
            Trouble::BrokenOff(why) => write!(f, "BROKEN OFF: {why}"),
        }
    }
}

// The first byte that is not the written one, or behind those what was lent.
fn first_difference(out: &[u8], written: &[u8]) -> Option<OtherByte> {
    let wanted = written.iter().copied().chain(iter::repeat(LENT));
    out.iter()
        .copied()
        .zip(wanted)
        .enumerate()
        .find(|(_, (found, recorded))| found != recorded)
        .map(|(at, (found, recorded))| OtherByte {
            at,
            found,
            recorded,
        })
}

// Makes the next call of the file, and gives its record's length; none at the file's end.
fn replay_next(
    file: &mut impl Read,
    record: &mut Record,
    host: &mut Host,
) -> Result<Option<usize>, Trouble> {
    let mut lent = [LENT; MAX_ROOM];
    let Some(length) = record.read(file)? else {
        return Ok(None);
    };
    let call = record.head[0];
    let r = record.parts().ok_or("no call has such numbers")?;
    let out = lent.get_mut(..r.room()).ok_or("no call has such numbers")?;
    let found = host.call(r, out);
    let recorded = r.answer();
    let byte = first_difference(out, r.written);
    if found != recorded || byte.is_some() {
        return Err(Trouble::Different {
            call,
            found,
            recorded,
            byte,
        });
    }
    Ok(Some(length))
}

fn tell_end(rt: &impl Print, n: usize, counts: [usize; 19]) -> io::Result<()> {
    if n == 0 {
        return println!(rt; "NO CALL: the file is empty, or cannot be read");
    }
    for (name, count) in NAMES.iter().zip(counts).skip(1) {
        println!(rt; "  {name} {count}")?;
    }
    println!(rt; "{n} calls replayed, all as recorded")
}

// All records of a file, as far as each goes as recorded; at most a million.
pub fn replay_all(rt: &impl Print, file: &mut impl Read) -> io::Result<()> {
    let mut record = Record::new();
    let mut host = Host::new();
    let mut counts = [0usize; 19];
    let mut at: usize = 0;
    for n in 0..1000000 {
        match replay_next(file, &mut record, &mut host) {
            Ok(Some(length)) => {
                let k = usize::from(record.head[0] % 19);
                counts[k] = counts[k].wrapping_add(1);
                at = at.wrapping_add(length);
            }
            Ok(None) => return tell_end(rt, n, counts),
            Err(trouble) => {
                let call = n + 1;
                return println!(rt; "{trouble}; call {call} of the file, at byte {at}");
            }
        }
    }
    Ok(())
}
