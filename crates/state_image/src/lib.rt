// The lent state as the rules' state: its view, what writing a state over it leaves, and the state test.
#![tactic(auto)]

ghost use Rattle.std.specs.Prelude.{◌≡◌, ◌&&◌, ℕ, ◌≤◌, ◌<◌, length};
ghost use Rattle.state_rules.specs.Setups.{good_setup, good_shapes};
ghost use Rattle.state_rules.specs.Places.{setup_size, state_size};
ghost use Rattle.state_rules.specs.Image.{good_head, tested};

pub const STATE_SIZE: usize = 109056;

// The numbers that the setup's region begins with.
pub fn setup_good(r: &[u8]) -> bool
    requires { setup_size ≤ length r.now }
    ensures { result ≡ good_setup r.now }
{
    if base_cells::u8_at(r, 0) > 16 {
        return false;
    }
    if base_cells::u8_at(r, 1) < 1 {
        return false;
    }
    if base_cells::u8_at(r, 2) > 32 {
        return false;
    }
    if base_cells::u8_at(r, 3) > 32 {
        return false;
    }
    if base_cells::u32_at(r, 4) > 65536 {
        return false;
    }
    true
}

// The next id, the ring's word and the number of connections; `&` has no jump, so neither has a test of several numbers.
fn head_good(s: &[u8]) -> bool
    requires { length s.now ≡ state_size }
    ensures { result ≡ good_head s.now }
{
    let id = base_cells::u32_at(s, state_layout::NEXT_ID);
    let ring = base_cells::u32_at(s, state_layout::RING);
    let conns = base_cells::u16_at(s, state_layout::CONNECTIONS);
    (0 < id) & (ring < state_layout::RING_BOUND) & (conns <= 32)
}

// All 16 sizes, in use or not: one run along their column, with no jump out of it, which `all` would have.
fn shapes_good(r: &[u8]) -> bool
    requires { setup_size ≤ length r.now }
    ensures { result ≡ good_shapes r.now }
{
    let mut good = true;
    for i in 0..16 {
        good &= state_layout::size_at(r, i) <= 512;
    }
    good
}

// The state test: answer 1 where it fails.
pub fn test_state(s: &[u8]) -> bool
    ensures { result ≡ tested s.now }
{
    if s.len() != STATE_SIZE {
        return false;
    }
    if !setup_good(&s[0..state_layout::SETUP_SIZE]) {
        return false;
    }
    if !head_good(s) {
        return false;
    }
    shapes_good(&s[0..state_layout::SETUP_SIZE])
}
