// The limits of the rules that concern the calls, run and compared: stdin is the table of calls, each line of stdout one call and its
// answer.
#![tactic(auto)]

ghost use Rattle.std.specs.Prelude.{◌≤◌, IfOk, length};

mod calls;
mod cases;
mod chance;
mod lent;
mod owners;
mod setups;
mod tally;

use std::io;
use std::io::Read;

// Reads until the buffer is full or the input ends, and says how many bytes that were: std's read_exact says no count where the input ends
// early, and no library may hold what names std::io, so each program that reads a table has this.
fn read_full(input: &mut impl Read, buf: &mut [u8]) -> io::Result<usize>
    ensures { IfOk result (λ n. n ≤ length buf.new) }
{
    let mut done: usize = 0;
    while done < buf.len() {
        let n = input.read(&mut buf[done..])?;
        if n == 0 {
            break;
        }
        done += n;
    }
    Ok(done)
}

fn main(rt: HostRuntime) -> io::Result<()> {
    let mut table = [0u8; 65536];
    let n = read_full(&mut rt.reader(), &mut table)?;
    cases::say_all(&rt, &table[..n])
}
