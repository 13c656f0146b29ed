// What a call answers as a number (rules, chapter 2): how many bytes it wrote, from bit 8 on, or the number for no.
ghost use Rattle.std.specs.Prelude.{◌≡◌};
ghost use Rattle.rules.specs.Answers.{no_number, outcome_number};

use rules::No;

fn no_number(no: No) -> u64
    ensures { result ≡ no_number no }
{
    match no {
        No::BadSetup => 2,
        No::BadTime => 3,
        No::NotParsed => 4,
        No::NoAssembly => 6,
        No::TooLong => 7,
        No::NoRoom => 8,
        No::NothingThere => 9,
    }
}

pub fn number(outcome: Result<u16, No>) -> u64
    ensures { result ≡ outcome_number outcome }
{
    match outcome {
        Ok(n) => n as u64 * 256,
        Err(no) => no_number(no),
    }
}
