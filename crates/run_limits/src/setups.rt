// Setup: a good block, and the lengths of what is lent.
use crate::cases::Case;
use adapter::app_setup::threshtide_setup;

// The block's assemblies stand one behind the other, in 5 bytes each: the first one's instance, size and kind.
const INSTANCE: usize = 110;

const SIZE: usize = 112;

const KIND: usize = 114;

const ASSEMBLY: usize = 5;

// 16 assemblies of 4 bytes, instances 100 to 115: input, output, configuration, and again. A transfer limit of 255, no names, no EDS.
pub fn good_block() -> [u8; 193] {
    let mut b = [0; 193];
    b[0] = 16;
    b[1] = 255;
    for i in 0..16 {
        b[INSTANCE + i * ASSEMBLY] = (100 + i) as u8;
        b[SIZE + i * ASSEMBLY] = 4;
        b[KIND + i * ASSEMBLY] = (1 + i % 3) as u8;
    }
    b
}

// A setup with so many bytes of state, block and EDS; none where there are not so many.
pub fn setup(case: Case<'_>, state: &mut [u8], block: &[u8]) -> Option<u64> {
    let eds = [1u8; 65536];
    let state = state.get_mut(..case.a as usize)?;
    let block = block.get(..case.b as usize)?;
    let eds = eds.get(..case.c as usize)?;
    Some(threshtide_setup(state, block, eds, 7))
}
