// Ten calls on one state: what each answers, and whether the state passes its test after it.
ghost use Rattle.std.specs.Prelude.{◌≤◌};

use crate::calls::Call;
use crate::cases::Case;
use crate::{calls, chance};
use std::io;

// Each call's letter, and the numbers for no that it may give besides 1 (docs/INTERFACE.md).
const CALLS: [[u8; 4]; 10] = [
    [b's', 8, 8, 8],
    [b'c', 8, 8, 8],
    [b'd', 9, 8, 8],
    [b'i', 6, 7, 7],
    [b'a', 6, 8, 8],
    [b'o', 6, 8, 8],
    [b'n', 9, 8, 8],
    [b'h', 3, 3, 3],
    [b'x', 4, 9, 8],
    [b'e', 3, 3, 3],
];

// How many calls were made, how many answered 1, how many a number of their row above, and how many left a state that passes the test.
#[derive(Clone, Copy)]
struct Tally {
    calls: u64,
    ones: u64,
    known: u64,
    passed: u64,
}

impl Tally {
    // One more call: its answer, the numbers for no that it may give, and the state after it.
    fn count(&mut self, answer: u64, refusals: [u8; 3], state: &[u8]) {
        let n = (answer % 256) as u8;
        let known = n == 0 || refusals.contains(&n);
        let passed = state_image::test_state(state);
        self.calls = self.calls.wrapping_add(1);
        self.ones = self.ones.wrapping_add(u64::from(n == 1));
        self.known = self.known.wrapping_add(u64::from(known));
        self.passed = self.passed.wrapping_add(u64::from(passed));
    }

    fn count_all(&mut self, time: u64, state: &mut [u8]) {
        for [letter, a, b, c] in CALLS {
            let answer = call(letter, time, state);
            self.count(answer, [a, b, c], state);
        }
    }
}

// The number of 32 bits at a place; 0 in a state that is short by more than a byte.
fn u32_in(s: &[u8], at: usize) -> u32
    requires { at ≤ 109000 }
{
    if s.len() < 109055 {
        0
    } else {
        base_cells::u32_at(s, at)
    }
}

// A call about the assembly that the setup has first and the table's first connection, with a sequence by chance.
fn call(letter: u8, time: u64, state: &mut [u8]) -> u64 {
    let mut out = [0u8; 1024];
    let mut close = [0u8; 12];
    let row = state_layout::TABLE;
    let originator_serial = u32_in(state, row + state_layout::ORIGINATOR_SERIAL);
    base_cells::put_u32(&mut close, 2, u32_in(state, row + state_layout::SERIAL));
    base_cells::put_u32(&mut close, 6, originator_serial);
    let instance = u32_in(state, state_layout::INSTANCES) % 65536;
    let peer = u32_in(state, row + state_layout::ORIGINATOR);
    let id = u32_in(state, row + state_layout::O_T_ID);
    let frame = calls::frame(id, u32_in(state, 60000), 1, 0x09090909);
    let (n, bytes): (u32, &[u8]) = match letter {
        b'i' => (instance, &[1, 2, 3]),
        b'h' => (peer, &frame),
        _ => (instance, &close),
    };
    let asked = Call {
        letter,
        time,
        n,
        kind: 1,
        bytes,
    };
    asked.make(state, &mut out)
}

// So many states by chance from a seed; or, where there is none, the state as it is.
fn count_states(many: u64, seed: u32, good: bool, state: &mut [u8]) -> Tally {
    let mut t = Tally {
        calls: 0,
        ones: 0,
        known: 0,
        passed: 0,
    };
    let mut x = seed;
    for _ in 0..many {
        x = chance::state_of(state, x, good);
        let time = if x == 0 { 5 } else { u64::from(x) * 1000000000 };
        t.count_all(time, state);
    }
    t
}

// The numbers of a case: how many bytes of the state, how many states, the seed, and whether they are made good.
pub fn say(rt: &impl Print, case: Case<'_>, state: &mut [u8]) -> io::Result<()> {
    let Some(state) = state.get_mut(..case.a as usize) else {
        return Ok(());
    };
    let t = count_states(case.b, (case.c % 4294967296) as u32, case.d > 0, state);
    rt.write_all(case.name)?;
    println!(rt;
        ", {} calls: {} answers of 1, {} other numbers of theirs, {} times the state passed its test",
        t.calls, t.ones, t.known, t.passed
    )
}
