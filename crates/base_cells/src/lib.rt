// Little-endian numbers in byte slices.
#![tactic(auto)]

ghost use Rattle.std.specs.Prelude.{◌≡◌, ℕ, ◌+◌, ◌≤◌, ◌<◌, ◌*◌, length, drop, replicate};
ghost use Rattle.std.proofs.Math.Seq.{paste};
ghost use Rattle.std.proofs.lemmas.List.Edits.{sets};
ghost use Rattle.base_cells.specs.Numbers.{le, put};
ghost use Rattle.base_cells.specs.BigEndian.{put_be};
ghost use Rattle.base_cells.specs.Records.{of_bool};

pub fn u8_at(s: &[u8], at: usize) -> u8
    requires { at + 1 ≤ length s.now }
    ensures { result ≡ le 1 s.now at }
{
    s[at]
}

pub fn u16_at(s: &[u8], at: usize) -> u16
    requires { at + 2 ≤ length s.now }
    ensures { result ≡ le 2 s.now at }
{
    u16::from_le_bytes([s[at], s[at + 1]])
}

pub fn u32_at(s: &[u8], at: usize) -> u32
    requires { at + 4 ≤ length s.now }
    ensures { result ≡ le 4 s.now at }
{
    u32::from_le_bytes([s[at], s[at + 1], s[at + 2], s[at + 3]])
}

pub fn u64_at(s: &[u8], at: usize) -> u64
    requires { at + 8 ≤ length s.now }
    ensures { result ≡ le 8 s.now at }
{
    u64::from_le_bytes([
        s[at],
        s[at + 1],
        s[at + 2],
        s[at + 3],
        s[at + 4],
        s[at + 5],
        s[at + 6],
        s[at + 7],
    ])
}

pub fn put_u8(s: &mut [u8], at: usize, v: u8)
    requires { at + 1 ≤ length s.old }
    ensures { s.new ≡ put 1 s.old at v }
{
    s[at] = v;
}

pub fn put_u16(s: &mut [u8], at: usize, v: u16)
    requires { at + 2 ≤ length s.old }
    ensures { s.new ≡ put 2 s.old at v }
{
    s[at..at + 2].copy_from_slice(&v.to_le_bytes());
}

pub fn put_u32(s: &mut [u8], at: usize, v: u32)
    requires { at + 4 ≤ length s.old }
    ensures { s.new ≡ put 4 s.old at v }
{
    s[at..at + 4].copy_from_slice(&v.to_le_bytes());
}

pub fn put_u64(s: &mut [u8], at: usize, v: u64)
    requires { at + 8 ≤ length s.old }
    ensures { s.new ≡ put 8 s.old at v }
{
    s[at..at + 8].copy_from_slice(&v.to_le_bytes());
}

// ---- the same, most significant byte first

pub fn put_be16(s: &mut [u8], at: usize, v: u16)
    requires { at + 2 ≤ length s.old }
    ensures { s.new ≡ put_be 2 s.old at v }
{
    s[at..at + 2].copy_from_slice(&v.to_be_bytes());
}

pub fn put_be32(s: &mut [u8], at: usize, v: u32)
    requires { at + 4 ≤ length s.old }
    ensures { s.new ≡ put_be 4 s.old at v }
{
    s[at..at + 4].copy_from_slice(&v.to_be_bytes());
}

pub fn put_bool(s: &mut [u8], at: usize, b: bool)
    requires { at + 1 ≤ length s.old }
    ensures { s.new ≡ put 1 s.old at (of_bool b) }
{
    put_u8(s, at, b as u8);
}

// The n bytes from `from` moved down to `to`. What stands behind the place that they came to stays.
pub fn move_down(s: &mut [u8], to: usize, from: usize, n: usize)
    requires { (to ≤ from) × (from + n ≤ length s.old) }
    ensures { s.new ≡ paste s.old to (drop from s.old) n }
{
    s.copy_within(from..from + n, to);
}

// n bytes from `at` on made zero. `fill` was tried and took 13 to 16 instructions more a call (callgrind, at 4, 16, 64 and 512 bytes).
pub fn zero(s: &mut [u8], at: usize, n: usize)
    requires { at + n ≤ length s.old }
    ensures { s.new ≡ sets s.old at (replicate n 0) }
{
    for b in &mut s[at..at + n] {
        *b = 0;
    }
}
