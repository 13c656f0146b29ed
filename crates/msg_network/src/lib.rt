// TCP/IP, class 0xF5, and Ethernet Link, class 0xF6.
#![tactic(auto)]

ghost use Rattle.std.specs.Prelude.{◌≡◌, ℕ, ◌≤◌, ◌<◌, [], length};
ghost use Rattle.rules.specs.Attributes.{Gives, value_of, single};
ghost use Rattle.rules.specs.Objects.{interface, tcp_ip_attributes, tcp_ip, ethernet_attributes, ethernet_link};
ghost use Rattle.state_rules.specs.Setups.{setup_from};
ghost use Rattle.state_rules.specs.Places.{setup_size};
ghost use Rattle.state_rules.specs.Image.{view};
ghost use Rattle.app_answers.specs.Outcomes.{Passed};
ghost use Rattle.msg_attributes.specs.Told.{told};

use rules::objects::Fault;

// Local address and mask, no gateway, no name servers, no domain name.
fn put_interface(local: u32, mask: u32, out: &mut [u8]) -> Result<usize, Fault>
    requires { 512 ≤ length out.old }
    ensures { (result, out.new) ≡ told (Gives (interface local mask)) out.old }
{
    base_cells::put_u32(out, 0, local);
    base_cells::put_u32(out, 4, mask);
    base_cells::put_u32(out, 8, 0);
    base_cells::put_u32(out, 12, 0);
    base_cells::put_u32(out, 16, 0);
    base_cells::put_u16(out, 20, 0);
    Ok(22)
}

#[tactic(auto, using(std::proofs::lemmas::Bool::Decides::nat_tests), unfolding(msg_attributes::specs::Told::told, base_cells::specs::Numbers::le_bytes, rules::specs::Objects::tcp_ip_attributes))]
fn tcp_ip_value(local: u32, mask: u32, n: u32, out: &mut [u8]) -> Result<usize, Fault>
    requires { 512 ≤ length out.old }
    ensures { (result, out.new) ≡ told (value_of n (tcp_ip_attributes local mask)) out.old }
{
    match n {
        1 => msg_attributes::bytes(out, &1u32.to_le_bytes()),
        2 | 3 => msg_attributes::bytes(out, &0u32.to_le_bytes()),
        4 => msg_attributes::bytes(out, b"\x02\x00\x20\xF6\x24\x01"),
        5 => put_interface(local, mask, out),
        6 => msg_attributes::bytes(out, &0u16.to_le_bytes()),
        _ => Err(Fault::AttributeUnknown),
    }
}

#[tactic(auto, using(std::proofs::lemmas::Bool::Decides::nat_tests), unfolding(rules::specs::Objects::tcp_ip, msg_attributes::specs::Told::told, msg_attributes::specs::Told::wanted))]
pub fn tcp_ip(
    local: u32,
    mask: u32,
    service: u8,
    instance: u32,
    a: Option<u32>,
    out: &mut [u8],
) -> Result<usize, Fault>
    requires { 512 ≤ length out.old }
    ensures { (result, out.new) ≡ told (tcp_ip local mask service instance a) out.old }
{
    match instance {
        0 => msg_attributes::class(service, a, out),
        1 => tcp_ip_value(local, mask, msg_attributes::wanted(service, a)?, out),
        _ => Err(Fault::ObjectUnknown),
    }
}

#[tactic(auto, using(std::proofs::lemmas::Bool::Decides::nat_tests), unfolding(msg_attributes::specs::Told::told, base_cells::specs::Numbers::le_bytes, rules::specs::Objects::ethernet_attributes))]
fn ethernet_value(r: &[u8], n: u32, out: &mut [u8]) -> Result<usize, Fault>
    requires { (setup_size ≤ length r.now) × (512 ≤ length out.old) }
    ensures { (result, out.new) ≡ told (value_of n (ethernet_attributes (setup_from r.now []))) out.old }
{
    match n {
        1 => msg_attributes::bytes(out, &100u32.to_le_bytes()),
        2 => msg_attributes::bytes(out, &0x0Fu32.to_le_bytes()),
        3 => msg_attributes::bytes(out, &r[40..46]),
        _ => Err(Fault::AttributeUnknown),
    }
}

#[tactic(auto, using(std::proofs::lemmas::Bool::Decides::nat_tests, crate::specs::Network::ethernet_table), unfolding(rules::specs::Objects::ethernet_link, msg_attributes::specs::Told::told, msg_attributes::specs::Told::wanted))]
pub fn ethernet_link(
    s: &[u8],
    service: u8,
    instance: u32,
    a: Option<u32>,
    out: &mut [u8],
) -> Result<usize, Fault>
    requires { Passed s.now × (512 ≤ length out.old) }
    ensures { (result, out.new) ≡ told (ethernet_link (view s.now).setup service instance a) out.old }
{
    match instance {
        0 => msg_attributes::class(service, a, out),
        1 => {
            let n = msg_attributes::wanted(service, a)?;
            ethernet_value(&s[0..state_layout::SETUP_SIZE], n, out)
        }
        _ => Err(Fault::ObjectUnknown),
    }
}
