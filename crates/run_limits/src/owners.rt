// Two owners and the events of their outputs.
use crate::calls;
use adapter::app_calls::{threshtide_next_event, threshtide_output};
use adapter::io_calls::threshtide_receive;

// How many events wait; all are taken.
pub fn take_all(state: &mut [u8]) -> u64 {
    let mut out = [0u8; 32];
    (0..2000)
        .find(|_| threshtide_next_event(state, &mut out) == 9)
        .unwrap_or(2000)
}

// The connection of the i-th row, the last (docs/STATE.md): from 10.0.0.1, O->T RPI 10,000 with multiplier 0, the owner of the output at
// a place. It lives until 100,000 and does not produce. None where the table has no such row.
pub fn join(state: &mut [u8], i: usize, id: u32, output: u16) -> Option<u64> {
    let mut row = [0u8; state_layout::ROW];
    if state.len() != state_layout::STATE_SIZE || i > 31 {
        return None;
    }
    base_cells::put_u64(&mut row, state_layout::UNTIL, 100000);
    base_cells::put_u8(&mut row, state_layout::ROLE, (output % 256) as u8);
    base_cells::put_u32(&mut row, state_layout::O_T_ID, id);
    base_cells::put_u32(&mut row, state_layout::ORIGINATOR, calls::PEER);
    base_cells::put_u32(&mut row, state_layout::O_T_RPI, 10000);
    base_cells::put_u16(&mut row, state_layout::SERIAL, (id % 65536) as u16);
    base_copies::copy_in(state, state_layout::TABLE + i * state_layout::ROW, &row);
    base_cells::put_u16(state, state_layout::CONNECTIONS, (i + 1) as u16);
    Some(0)
}

// A change of instance 104, and a read of it, so many times.
pub fn change(state: &mut [u8], many: u32) {
    let mut out = [0u8; 5];
    for k in 1..=many {
        let cip = (k % 65536) as u16;
        threshtide_receive(state, 0, calls::PEER, &calls::frame(2, k, cip, k % 2 + 1));
        threshtide_output(state, 104, &mut out);
    }
}
