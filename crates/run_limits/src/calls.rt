// The calls, by the letter that the table has for each.
ghost use Rattle.std.specs.Prelude.{◌≡◌, length};

use crate::cases::Case;
use crate::owners;
use adapter::app_calls::{
    threshtide_assembly, threshtide_connections, threshtide_next_event, threshtide_output,
    threshtide_set_input, threshtide_stats,
};
use adapter::conn_calls::{threshtide_close, threshtide_expire};
use adapter::io_calls::{threshtide_next_deadline, threshtide_receive};

pub const PEER: u32 = 0x0A000001;

// A frame: the id, the sequence, the CIP sequence, run, and four bytes of data.
pub fn frame(id: u32, sequence: u32, cip: u16, data: u32) -> [u8; 28]
    ensures { 28 ≡ length result }
{
    let mut f =
        *b"\x02\x00\x02\x80\x08\x00\x00\x00\x00\x00\x00\x00\x00\x00\xB1\x00\x0A\x00\x00\x00\x01\x00\x00\x00\x00\x00\x00\x00";
    base_cells::put_u32(&mut f, 6, id);
    base_cells::put_u32(&mut f, 10, sequence);
    base_cells::put_u16(&mut f, 18, cip);
    base_cells::put_u32(&mut f, 24, data);
    f
}

// What is passed to a call: n is an instance or the sender's address, kind that of an assembly.
#[derive(Clone, Copy)]
pub struct Call<'a> {
    pub letter: u8,
    pub time: u64,
    pub n: u32,
    pub kind: u8,
    pub bytes: &'a [u8],
}

impl Call<'_> {
    pub fn make(self, state: &mut [u8], out: &mut [u8]) -> u64 {
        match self.letter {
            b'i' => threshtide_set_input(state, self.n, self.bytes),
            b'o' => threshtide_output(state, self.n, out),
            b'a' => threshtide_assembly(state, self.kind, self.n, out),
            b'n' => threshtide_next_event(state, out),
            b's' => threshtide_stats(state, out),
            b'c' => threshtide_connections(state, out),
            b'd' => threshtide_next_deadline(state, out),
            b'h' => threshtide_receive(state, self.time, self.n, self.bytes),
            b'x' => threshtide_close(state, self.bytes, out),
            _ => threshtide_expire(state, self.time),
        }
    }
}

// What a line of the table asks for, with so much room for the output; none where it asks for more than there is.
pub fn answer(case: Case<'_>, state: &mut [u8; 109057], out: &mut [u8]) -> Option<u64> {
    let a = (case.a % 4294967296) as u32;
    let b = (case.b % 4294967296) as u32;
    let c = (case.c % 65536) as u16;
    let d = (case.d % 256) as u32;
    let state = &mut state[..state_layout::STATE_SIZE];
    let out = out.get_mut(..case.b as usize)?;
    match case.letter {
        b'i' => {
            let bytes = b"123456789".get(b as usize..c as usize)?;
            Some(threshtide_set_input(state, a, bytes))
        }
        b'h' => {
            let frame = frame(b, c as u32, c, d);
            Some(threshtide_receive(state, case.a, PEER, &frame))
        }
        b'j' => owners::join(state, a as usize, b, c),
        b'm' => {
            owners::change(state, a);
            Some(0)
        }
        b'w' | b'f' => Some(owners::take_all(state)),
        letter => {
            let asked = Call {
                letter,
                time: case.a,
                n: a,
                kind: (c % 256) as u8,
                bytes: &[],
            };
            Some(asked.make(state, out))
        }
    }
}
