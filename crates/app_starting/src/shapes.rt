// The block's assemblies: kinds, sizes, and that no instance stands twice.
ghost use Rattle.std.specs.Prelude.{◌≡◌, ℕ, ◌+◌, ◌*◌, ◌≤◌, ◌<◌, eqb, length, take, drop};
ghost use Rattle.base_cells.specs.Back.{all};
ghost use Rattle.base_tables.specs.Tables.{rows};
ghost use Rattle.rules.specs.Lists.{any};
ghost use Rattle.rules.specs.Setup.{distinct};
ghost use Rattle.state_rules.specs.Places.{setup_size};
ghost use Rattle.app_starting.specs.Block.{shapes_at, shape_size, given_in};
ghost use Rattle.app_starting.specs.Shapes.{shape_given, instances_in};

fn instance_at(r: &[u8], i: usize) -> u16
    requires { (i < 16) × (setup_size ≤ length r.now) }
    ensures { result ≡ (given_in r.now i).instance }
{
    base_cells::u16_at(r, i * 5 + 110)
}

fn size_at(r: &[u8], i: usize) -> u16
    requires { (i < 16) × (setup_size ≤ length r.now) }
    ensures { result ≡ (given_in r.now i).size }
{
    base_cells::u16_at(r, i * 5 + 112)
}

fn shape_given(r: &[u8], i: usize) -> bool
    requires { (i < 16) × (setup_size ≤ length r.now) }
    ensures { result ≡ shape_given (take shape_size (drop (i * shape_size) (drop shapes_at r.now))) }
{
    let k = base_cells::u8_at(r, i * 5 + 114);
    if k < 1 {
        return false;
    }
    if k > 3 {
        return false;
    }
    let n = instance_at(r, i);
    if n < 1 {
        return false;
    }
    size_at(r, i) <= 512
}

pub fn shapes_given(r: &[u8], n: usize) -> bool
    requires { (n ≤ 16) × (setup_size ≤ length r.now) }
    ensures { result ≡ all (rows 5 shape_given n (drop shapes_at r.now)) }
{
    for i in 0..n {
        if !shape_given(r, i) {
            return false;
        }
    }
    true
}

// Whether the instance x stands at a place from j on.
fn again(r: &[u8], x: u16, j: usize, n: usize) -> bool
    requires { (n ≤ 16) × (setup_size ≤ length r.now) }
    ensures { result ≡ any (eqb x) (drop j (instances_in n r.now)) }
{
    for i in j..n {
        if x == instance_at(r, i) {
            return true;
        }
    }
    false
}

pub fn once_each(r: &[u8], n: usize) -> bool
    requires { (n ≤ 16) × (setup_size ≤ length r.now) }
    ensures { result ≡ distinct (instances_in n r.now) }
{
    for i in 0..n {
        if again(r, instance_at(r, i), i + 1, n) {
            return false;
        }
    }
    true
}
