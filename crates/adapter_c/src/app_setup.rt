// Setup: what was lent becomes a fresh state, or stays as it was.
ghost use Rattle.std.specs.Prelude.{◌≡◌};
ghost use Rattle.app_starting.specs.Block.{setup_call};

// Sets a state up from a block of 192 bytes and an EDS; ids begin at the seed. No: 1, 2.
#[unsafe(no_mangle)]
pub extern "C" fn threshtide_setup(state: &mut [u8], block: &[u8], eds: &[u8], seed: u32) -> u64
    ensures { (result, state.new) ≡ setup_call state.old block.now eds.now seed }
{
    adapter::app_setup::threshtide_setup(state, block, eds, seed)
}
