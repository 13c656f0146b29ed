// The block's assemblies put in the state's columns: instances, sizes and kinds each on their own.
ghost use Rattle.std.specs.Prelude.{◌≡◌, ℕ, ◌≤◌, ◌<◌, length};
ghost use Rattle.state_rules.specs.Places.{setup_size};
ghost use Rattle.app_starting.specs.Block.{in_columns, spread};

fn put_shape(s: &mut [u8], block: &[u8], i: usize)
    requires { (setup_size ≤ length s.old) × (setup_size ≤ length block.now) × (i < 16) }
    ensures { s.new ≡ in_columns block.now i s.old }
{
    let instance = base_cells::u16_at(block, i * 5 + 110);
    let size = base_cells::u16_at(block, i * 5 + 112);
    let kind = base_cells::u8_at(block, i * 5 + 114);
    base_cells::put_u16(s, state_layout::INSTANCES + i * 2, instance);
    base_cells::put_u16(s, state_layout::SIZES + i * 2, size);
    base_cells::put_u8(s, state_layout::KINDS + i, kind);
}

// The first n; the other places stay as they are.
pub fn put_shapes(s: &mut [u8], block: &[u8], n: usize)
    requires { (setup_size ≤ length s.old) × (setup_size ≤ length block.now) × (n ≤ 16) }
    ensures { s.new ≡ spread block.now n s.old }
{
    for i in 0..n {
        put_shape(s, block, i);
    }
}
