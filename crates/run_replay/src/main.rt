// Replays recorded calls on the library: `replay FILE [FILE ..]`. Each answer and each byte of output is compared with the recorded one,
// which is what the Rust adapter gave. SAMPLE.md says how a file is made.
#![tactic(auto)]

mod calls;
mod recorded;
mod replay;

use std::env::FillError;
use std::io::ErrorKind;
use std::process::ExitCode;
use std::rt::{Env, Files};
use std::{fs, io, str};

fn open<R: Files>(rt: &R, path: &[u8]) -> io::Result<R::File> {
    let Ok(name) = str::from_utf8(path) else {
        return Err(io::Error::from(ErrorKind::InvalidFilename));
    };
    fs::open(rt, name)
}

// Says on standard error why a file was not opened.
fn fail(rt: &impl Eprint, path: &[u8], e: &io::Error) -> io::Result<()> {
    let name = str::from_utf8(path).unwrap_or("a name that is not UTF-8");
    eprintln!(rt; "{name}: {e}")
}

// The file that the k-th argument names; false where it cannot be opened.
fn replay_file<R: Print + Eprint + Env + Files>(rt: &R, k: usize) -> io::Result<bool> {
    let mut path = [0u8; 4096];
    // a name that is too long is one of no file
    let p = rt.arg(k, &mut path).unwrap_or(0);
    let mut file = match open(rt, &path[..p]) {
        Ok(file) => file,
        Err(e) => {
            fail(rt, &path[..p], &e)?;
            return Ok(false);
        }
    };
    rt.write_all(&path[..p])?;
    println!(rt; "")?;
    replay::replay_all(rt, &mut file)?;
    Ok(true)
}

// How many arguments there are, the program's name among them.
fn arg_count(rt: &impl Env) -> usize {
    (0..usize::MAX)
        .find(|n| matches!(rt.arg(*n, &mut []), Err(FillError::NotPresent)))
        .unwrap_or(usize::MAX)
}

fn main(rt: HostRuntime) -> io::Result<ExitCode> {
    let n = arg_count(&rt);
    let mut unread = false;
    if n < 2 {
        println!(rt; "usage: replay FILE [FILE ..]")?;
        println!(rt; "  FILE  recorded calls, as crates/run_replay/SAMPLE.md says")?;
    }
    for k in 1..n {
        if !replay_file(&rt, k)? {
            unread = true;
        }
    }
    Ok(ExitCode::from(u8::from(unread)))
}
