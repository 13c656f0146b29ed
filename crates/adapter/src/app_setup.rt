// Setup: what was lent becomes a fresh state, or stays as it was.
ghost use Rattle.std.specs.Prelude.{◌≡◌};
ghost use Rattle.app_starting.specs.Block.{setup_call};

use app_starting::checks;

// Sets a state up from a block of 192 bytes and an EDS; ids begin at the seed. No: 1, 2.
pub fn threshtide_setup(state: &mut [u8], block: &[u8], eds: &[u8], seed: u32) -> u64
    ensures { (result, state.new) ≡ setup_call state.old block.now eds.now seed }
{
    if state.len() != state_layout::STATE_SIZE {
        return 1;
    }
    if !checks::accept(block, eds) {
        return 2;
    }
    app_starting::begin(state, block, eds, seed);
    0
}
