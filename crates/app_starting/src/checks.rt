// Whether a block and an EDS are accepted: No. 2 where not.
ghost use Rattle.std.specs.Prelude.{◌≡◌};
ghost use Rattle.app_starting.specs.Block.{accepted};
ghost use Rattle.app_starting.specs.Accept.{eds_fits};

use crate::shapes::{once_each, shapes_given};

// No EDS bytes where there is no EDS, else at most 65,535.
fn eds_fits(flag: u32, n: usize) -> bool
    ensures { result ≡ eds_fits flag n }
{
    if flag == 0 { n == 0 } else { n <= 65535 }
}

pub fn accept(block: &[u8], eds: &[u8]) -> bool
    ensures { result ≡ accepted block.now eds.now }
{
    if block.len() != 192 {
        return false;
    }
    let flag = base_cells::u32_at(block, 4);
    if flag > 1 {
        return false;
    }
    if !eds_fits(flag, eds.len()) {
        return false;
    }
    if !state_image::setup_good(block) {
        return false;
    }
    let n = base_cells::u8_at(block, 0) as usize;
    if !shapes_given(block, n) {
        return false;
    }
    once_each(block, n)
}
