// Setup: what the host's block and EDS say, whether that is accepted, and the state's bytes that it leaves.
#![tactic(auto)]

pub mod checks;
pub mod columns;
pub mod shapes;

ghost use Rattle.std.specs.Prelude.{◌≡◌, cond, ℕ, ◌+◌, ◌≤◌, eqb, length};
ghost use Rattle.rules.specs.Setup.{first_id};
ghost use Rattle.state_rules.specs.Places.{state_size, assemblies_of};
ghost use Rattle.app_starting.specs.Block.{started};

use crate::columns::put_shapes;

// The EDS mark: 0 for no EDS, else its length and one.
fn eds_mark(flag: u32, n: usize) -> u32
    requires { n ≤ 65535 }
    ensures { result ≡ cond (eqb flag 0) 0 (n + 1) }
{
    if flag == 0 {
        return 0;
    }
    (n + 1) as u32
}

// Ids start at the seed with bit 0 set.
fn first_id(seed: u32) -> u32
    ensures { result ≡ first_id seed }
{
    if seed % 2 == 0 {
        return seed + 1;
    }
    seed
}

// The fresh state, written over whatever the bytes were.
pub fn begin(s: &mut [u8], block: &[u8], eds: &[u8], seed: u32)
    requires { (length s.old ≡ state_size) × (length block.now ≡ 192) × (assemblies_of block.now ≤ 16) × (length eds.now ≤ 65535) }
    ensures { s.new ≡ started block.now eds.now seed }
{
    let mark = eds_mark(base_cells::u32_at(block, 4), eds.len());
    let id = first_id(seed);
    let assemblies = base_cells::u8_at(block, 0) as usize;
    let n = s.len();
    base_cells::zero(s, 0, n);
    base_copies::copy_in(s, 0, &block[0..110]);
    base_cells::put_u32(s, 4, mark);
    put_shapes(s, block, assemblies);
    base_cells::put_u32(s, state_layout::NEXT_ID, id);
    base_copies::copy_in(s, state_layout::EDS, eds);
}
