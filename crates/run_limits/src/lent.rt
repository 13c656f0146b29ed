// What is lent to the calls, and the cases that are told by what they leave there.
use crate::cases::Case;
use crate::{calls, setups};
use std::{fmt, io};

// What is lent is full of this before a call, so that a byte written shows.
const FILL: u8 = 170;

// The number for a case that no call can be made of.
const NO_CALL: u64 = 255;

// A call's answer: a yes, and what it counts where that is not 0; or the number for no and, where it was watched, whether all that was lent
// stayed as it was.
#[derive(Clone, Copy)]
struct Answer {
    number: u64,
    kept: Option<bool>,
}

impl fmt::Display for Answer {
    fn fmt<W: fmt::Write>(&self, f: &mut fmt::Formatter<W>) -> fmt::Result {
        let counted = self.number / 256;
        let no = self.number % 256;
        if no == 0 {
            return if counted == 0 {
                write!(f, "yes")
            } else {
                write!(f, "yes, {counted}")
            };
        }
        match self.kept {
            None => write!(f, "No. {no}"),
            Some(true) => write!(f, "No. {no}, nothing written"),
            Some(false) => write!(f, "No. {no}, SOMETHING WRITTEN"),
        }
    }
}

// What is named - is not told.
fn say_answer(rt: &impl Print, name: &[u8], answer: Answer) -> io::Result<()> {
    if name.len() < 2 {
        return Ok(());
    }
    rt.write_all(name)?;
    println!(rt; ": {answer}")
}

// The state and the block of the next setup, each with a byte more than it may have, and the output.
#[derive(Drop)]
pub struct Lent {
    pub state: [u8; 109057],
    pub block: [u8; 193],
    pub out: [u8; 1024],
}

impl Lent {
    pub fn new() -> Lent {
        Lent {
            state: [0; 109057],
            block: setups::good_block(),
            out: [0; 1024],
        }
    }

    // A byte of the block.
    pub fn put(&mut self, at: usize, v: u64) {
        if let Some(byte) = self.block.get_mut(at) {
            *byte = (v % 256) as u8;
        }
    }

    // A setup with so many bytes of state, block and EDS. The next begins with a good block again.
    pub fn begin(&mut self, rt: &impl Print, case: Case<'_>) -> io::Result<()> {
        let before = [FILL; 109057];
        self.state = before;
        let number = setups::setup(case, &mut self.state, &self.block).unwrap_or(NO_CALL);
        self.block = setups::good_block();
        let kept = Some(before == self.state);
        say_answer(rt, case.name, Answer { number, kept })
    }

    // A call with so much room for its output, its answer, and for a no whether all that was lent stayed as it was.
    pub fn say(&mut self, rt: &impl Print, case: Case<'_>) -> io::Result<()> {
        let instance = self.out[4];
        let before = self.state;
        let blank = [FILL; 1024];
        self.out = blank;
        let number = calls::answer(case, &mut self.state, &mut self.out).unwrap_or(NO_CALL);
        let kept = before == self.state && blank == self.out;
        match case.letter {
            b'w' => {
                rt.write_all(case.name)?;
                println!(rt; ": {number} waiting")
            }
            b'f' => {
                rt.write_all(case.name)?;
                println!(rt; ": the oldest is of instance {instance}, behind it wait {number}")
            }
            // receive counts what comes, whatever it answers
            b'h' => say_answer(rt, case.name, Answer { number, kept: None }),
            _ => {
                let kept = Some(kept);
                say_answer(rt, case.name, Answer { number, kept })
            }
        }
    }
}
