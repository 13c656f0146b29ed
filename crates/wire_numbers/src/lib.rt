// The numbers that an open carries and what they come to: the transport byte, a key's major revision, the timeout, the group address.
#![tactic(auto)]

ghost use Rattle.std.specs.Prelude.{◌≡◌, ◌*◌, ◌≤◌, min};
ghost use Rattle.wire_rules.specs.Transport.{transport_class, direction_bit, transport_ok, compatible_bit, major_of};
ghost use Rattle.wire_rules.specs.Timeout.{factor_of, timeout_of};
ghost use Rattle.wire_rules.specs.Group.{group_of};

// The transport class.
#[tactic(auto, using(crate::proofs::BitLaws::mask4))]
pub fn transport_class(t: u8) -> u8
    ensures { result ≡ transport_class t }
{
    t & 0x0F
}

// The direction bit of the transport byte.
#[tactic(auto, using(crate::proofs::BitLaws::mask1))]
fn direction_bit(t: u8) -> u8
    ensures { result ≡ direction_bit t }
{
    t >> 7 & 1
}

// Check 1.
pub fn transport_ok(t: u8) -> bool
    ensures { result ≡ transport_ok t }
{
    transport_class(t) == 1 && direction_bit(t) == 0
}

// Whether a key's major revision has the compatibility bit.
#[tactic(auto, using(crate::proofs::BitLaws::mask1))]
pub fn compatible(major: u8) -> bool
    ensures { result ≡ compatible_bit major }
{
    major >> 7 & 1 == 1
}

// A key's major revision itself.
#[tactic(auto, using(crate::proofs::BitLaws::mask7))]
pub fn major_of(major: u8) -> u8
    ensures { result ≡ major_of major }
{
    major & 0x7F
}

// Rule 5.17: the factors of the multipliers 0 to 7, as the standard's table lists them; in 16 bits, since each call writes the list out anew.
const FACTORS: [u16; 8] = [4, 8, 16, 32, 64, 128, 256, 512];

fn factor(multiplier: u8) -> u16
    ensures { (result ≡ factor_of multiplier) × (result ≤ 512) }
{
    FACTORS[usize::from(multiplier.min(7))]
}

// The timeout of a connection in microseconds, by its O→T RPI.
pub fn timeout(rpi: u32, multiplier: u8) -> u64
    ensures { result ≡ timeout_of rpi multiplier }
{
    u64::from(rpi) * u64::from(factor(multiplier))
}

// The group address of a device at a local address.
#[tactic(auto, using(crate::proofs::BitLaws::mask10))]
pub fn group(local: u32, mask: u32) -> u32
    ensures { result ≡ group_of local mask }
{
    let host = local & !mask;
    let index = host.wrapping_sub(1) & 0x3FF;
    0xEFC00100 + index * 32
}
