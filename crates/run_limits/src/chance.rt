// Bytes by chance as the state, and the numbers that the state test asks about, as docs/STATE.md lists them, made good.
ghost use Rattle.std.specs.Prelude.{◌≤◌};

use std::ops::Range;

fn fill(s: &mut [u8], seed: u32) -> u32 {
    let mut x = seed;
    for byte in s {
        x ^= x << 13;
        x ^= x >> 17;
        x ^= x << 5;
        *byte = (x >> 24) as u8;
    }
    x
}

// Bytes brought to one of n numbers from the least on: those at the places, so far apart, if all of them are there.
fn mend(s: &mut [u8], places: Range<usize>, apart: usize, n: u8, least: u8)
    requires apart { 1 ≤ apart }
    requires n { 1 ≤ n }
{
    let Some(bytes) = s.get_mut(places) else {
        return;
    };
    for byte in bytes.iter_mut().step_by(apart) {
        *byte = (*byte % n).wrapping_add(least);
    }
}

// The setup: its counts, lengths and sizes.
fn mend_setup(s: &mut [u8]) {
    mend(s, 0..1, 1, 17, 0);
    mend(s, 1..2, 1, 1, 1);
    mend(s, 2..4, 1, 33, 0);
    mend(s, 6..8, 1, 1, 0);
    mend(s, state_layout::SIZES + 1..state_layout::KINDS, 2, 2, 0);
}

// The head: the next id, the ring's word, and the number of connections.
fn mend_head(s: &mut [u8]) {
    mend(s, state_layout::NEXT_ID..217, 1, 1, 1);
    mend(s, 222..223, 1, 32, 0);
    mend(s, 223..224, 1, 1, 0);
    mend(s, state_layout::CONNECTIONS..225, 1, 33, 0);
    mend(s, 225..226, 1, 1, 0);
}

// A state by chance, its counts made good or not, and the next seed; where there is no seed, which is 0, the state as it is. A seed is
// followed by no 0.
pub fn state_of(s: &mut [u8], seed: u32, good: bool) -> u32 {
    if seed == 0 {
        return 0;
    }
    let x = fill(s, seed);
    if good {
        mend_setup(s);
        mend_head(s);
    }
    x
}
