// The Forward Open and Forward Close requests; `wire_numbers` has what their numbers come to. A large open has network parameters
// of four bytes where a small one has two. Bytes after the path are ignored, and a close's path is not parsed here.
#![tactic(auto)]

ghost use Rattle.std.specs.Prelude.{◌≡◌, ◌+◌, ◌*◌, ◌≤◌, length};
ghost use Rattle.base_cells.specs.Numbers.{le};
ghost use Rattle.wire_rules.specs.Params.{net_of, params_at};
ghost use Rattle.wire_rules.specs.Opens.{triad_at, way_at, width_of, fields_of, open_of, close_of};
ghost use Rattle.wire_opens.specs.Flags.{params_of};

use base_ids::{OtId, ToId, Triad};
use wire_rules::{ForwardOpen, NetParams, NetType, Place, Way};

// Service data up to 65,536 bytes.
const LIMIT: usize = 65536;

// A function and no `impl From<u32> for NetType`: both types are other crates'.
fn net_of(n: u32) -> NetType
    ensures { result ≡ net_of n }
{
    match n {
        0 => NetType::Null,
        1 => NetType::Multicast,
        2 => NetType::PointToPoint,
        _ => NetType::Reserved,
    }
}

// The parameters by their size and the number that has their flags.
#[tactic(auto, using(crate::proofs::BitLaws::mask1, crate::proofs::BitLaws::mask2))]
fn params_of(size: u32, flags: u32) -> NetParams
    ensures { result ≡ params_of size flags }
{
    NetParams {
        size,
        variable: flags >> 9 & 1 == 1,
        net: net_of(flags >> 13 & 3),
    }
}

// A large open's size has the low 16 bits to itself, and its flags stand above them as a small one's do in 16.
#[tactic(auto, using(crate::proofs::BitLaws::mask9, crate::proofs::BitLaws::mask16, crate::proofs::BitLaws::high_flags), unfolding(wire_rules::specs::Params::params_at))]
fn params_at(s: &[u8], at: usize, large: bool) -> NetParams
    requires { at + 4 ≤ length s.now }
    ensures { result ≡ params_at large s.now at }
{
    if large {
        let v = base_cells::u32_at(s, at);
        params_of(v & 0xFFFF, v >> 16)
    } else {
        let v = u32::from(base_cells::u16_at(s, at));
        params_of(v & 0x01FF, v)
    }
}

#[tactic(auto, unfolding(wire_rules::specs::Opens::triad_at))]
fn triad_at(s: &[u8], at: usize) -> Triad
    requires { at + 8 ≤ length s.now }
    ensures { result ≡ triad_at s.now at }
{
    Triad {
        serial: base_cells::u16_at(s, at),
        vendor: base_cells::u16_at(s, at + 2),
        originator: base_cells::u32_at(s, at + 4),
    }
}

#[tactic(auto, unfolding(wire_rules::specs::Opens::way_at))]
fn way_at(s: &[u8], at: usize, large: bool) -> Way
    requires { at + 8 ≤ length s.now }
    ensures { result ≡ way_at large s.now at }
{
    Way {
        rpi: base_cells::u32_at(s, at),
        params: params_at(s, at + 4, large),
    }
}

// The length of a path whose words the byte at a place counts.
fn path_len(s: &[u8], at: usize) -> usize
    requires { at + 1 ≤ length s.now }
    ensures { (result ≡ 2 * le 1 s.now at) × (result ≤ 510) }
{
    2 * usize::from(base_cells::u8_at(s, at))
}

// How many bytes the parameters of an open have.
#[tactic(auto, unfolding(wire_rules::specs::Opens::width_of))]
fn width(large: bool) -> usize
    ensures { (result ≡ width_of large) × (2 ≤ result) × (result ≤ 4) }
{
    if large { 4 } else { 2 }
}

#[tactic(auto, unfolding(wire_rules::specs::Opens::fields_of, wire_rules::specs::Opens::place_at))]
fn fields(s: &[u8], large: bool) -> ForwardOpen
    requires { 32 + width_of large + width_of large ≤ length s.now }
    ensures { result ≡ fields_of large s.now (width_of large) }
{
    let w = width(large);
    ForwardOpen {
        otid: OtId(base_cells::u32_at(s, 2)),
        toid: ToId(base_cells::u32_at(s, 6)),
        triad: triad_at(s, 10),
        multiplier: base_cells::u8_at(s, 18),
        ot: way_at(s, 22, large),
        to: way_at(s, 26 + w, large),
        transport: base_cells::u8_at(s, 30 + w + w),
        path: Place {
            start: 32 + w + w,
            len: path_len(s, 31 + w + w),
        },
    }
}

// The open that the service data is.
#[tactic(auto, unfolding(wire_rules::specs::Opens::open_of, wire_rules::specs::Opens::open_with))]
pub fn decode_open(request: &[u8], large: bool) -> Option<ForwardOpen>
    ensures { result ≡ open_of large request.now }
{
    let w = width(large);
    let path = 32 + w + w;
    if request.len() > LIMIT || request.len() < path {
        return None;
    }
    if request.len() - path < path_len(request, path - 1) {
        return None;
    }
    Some(fields(request, large))
}

// The close that the service data is.
#[tactic(auto, unfolding(wire_rules::specs::Opens::close_of))]
pub fn decode_close(request: &[u8]) -> Option<Triad>
    ensures { result ≡ close_of request.now }
{
    if request.len() > LIMIT || request.len() < 12 {
        return None;
    }
    if request.len() - 12 < path_len(request, 10) {
        return None;
    }
    Some(triad_at(request, 2))
}
