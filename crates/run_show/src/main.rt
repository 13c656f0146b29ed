// Shows what bytes of the wire say, or where they break: words and files in pairs, as `show frame FILE open FILE`.
#![tactic(auto)]

ghost use Rattle.std.specs.Prelude.{◌≤◌, IfOk, length};

mod frames;
mod opens;
mod paths;

use std::env::FillError;
use std::io::{ErrorKind, Read};
use std::process::ExitCode;
use std::rt::{Env, Files};
use std::{fs, io, str};

// One byte more than the greatest frame or message (chapter 1 of the rules), so that a file over size is seen to be.
const ROOM: usize = 65537;

// What became of a word and its file. Each of the three is met otherwise, which no Option and no Result says more plainly.
#[derive(Clone, Copy)]
enum Pair {
    Said,
    Unread,
    Unknown,
}

fn usage(rt: &impl Eprint) -> io::Result<()> {
    rt.eprint(
        "usage: show WORD FILE [WORD FILE ..]\n
  frame FILE     an I/O frame, as it stands in a UDP packet
  open FILE      the service data of a Forward Open (0x54)
  large FILE     the service data of a Large Forward Open (0x5B)
  close FILE     the service data of a Forward Close (0x4E)
  path FILE      a padded path
  request FILE   an explicit message: service, path, data\n",
    )
}

// What the bytes say as the word asks; false where there is no such word.
fn say_as(rt: &impl Print, word: &[u8], bytes: &[u8]) -> io::Result<bool> {
    match word {
        b"frame" => frames::say_frame(rt, bytes)?,
        b"open" => opens::say_open(rt, bytes, false)?,
        b"large" => opens::say_open(rt, bytes, true)?,
        b"close" => opens::say_close(rt, bytes)?,
        b"path" => paths::say_path(rt, bytes)?,
        b"request" => paths::say_request(rt, bytes)?,
        _ => return Ok(false),
    }
    Ok(true)
}

// The file's bytes, as far as there is room, and how many they are.
fn read_file(rt: &impl Files, path: &[u8], bytes: &mut [u8]) -> io::Result<usize>
    ensures { IfOk result (λ n. n ≤ length bytes.new) }
{
    let Ok(name) = str::from_utf8(path) else {
        return Err(io::Error::from(ErrorKind::InvalidFilename));
    };
    fs::open(rt, name)?.read(bytes)
}

// Says on standard error why a file was not read.
fn fail(rt: &impl Eprint, path: &[u8], e: &io::Error) -> io::Result<()> {
    let name = str::from_utf8(path).unwrap_or("a name that is not UTF-8");
    eprintln!(rt; "{name}: {e}")
}

fn say_file<R: Print + Eprint + Files>(rt: &R, word: &[u8], path: &[u8]) -> io::Result<Pair> {
    let mut bytes = [0u8; ROOM];
    let n = match read_file(rt, path, &mut bytes) {
        Ok(n) => n,
        Err(e) => {
            fail(rt, path, &e)?;
            return Ok(Pair::Unread);
        }
    };
    rt.write_all(word)?;
    rt.write_all(b" ")?;
    rt.write_all(path)?;
    println!(rt; ": {n} bytes")?;
    if say_as(rt, word, &bytes[..n])? {
        Ok(Pair::Said)
    } else {
        Ok(Pair::Unknown)
    }
}

// A word and a file's name, as arguments of these numbers; unknown where one is missing or too long.
fn say_pair<R: Print + Eprint + Env + Files>(
    rt: &R,
    first: usize,
    second: usize,
) -> io::Result<Pair> {
    let mut word = [0u8; 16];
    let mut path = [0u8; 4096];
    let (Ok(w), Ok(p)) = (rt.arg(first, &mut word), rt.arg(second, &mut path)) else {
        return Ok(Pair::Unknown);
    };
    say_file(rt, &word[..w], &path[..p])
}

// How many arguments there are, the program's name among them.
fn arg_count(rt: &impl Env) -> usize {
    (0..usize::MAX)
        .find(|n| matches!(rt.arg(*n, &mut []), Err(FillError::NotPresent)))
        .unwrap_or(usize::MAX)
}

fn main(rt: HostRuntime) -> io::Result<ExitCode> {
    let n = arg_count(&rt);
    let mut unread = false;
    if n < 3 {
        usage(&rt)?;
        return Ok(ExitCode::SUCCESS);
    }
    for first in (1..n).step_by(2) {
        match say_pair(&rt, first, first + 1)? {
            Pair::Said => {}
            Pair::Unread => unread = true,
            Pair::Unknown => {
                usage(&rt)?;
                break;
            }
        }
    }
    Ok(ExitCode::from(u8::from(unread)))
}
