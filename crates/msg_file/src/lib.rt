// File, class 0x37: the attributes of the EDS, and its upload over the lent position.
#![tactic(auto)]

ghost use Rattle.std.specs.Prelude.{◌≡◌, [], ℕ, ◌≤◌, ◌<◌, length};
ghost use Rattle.base_cells.specs.Numbers.{le};
ghost use Rattle.rules.specs.Attributes.{Gives, tagged_text, value_of, single};
ghost use Rattle.rules.specs.Objects.{file_attributes, eds_file, file};
ghost use Rattle.state_rules.specs.Setups.{setup_from};
ghost use Rattle.state_rules.specs.Places.{setup_size};
ghost use Rattle.msg_attributes.specs.Told.{told};
ghost use Rattle.msg_positions.specs.Positions.{dec_upload};
ghost use Rattle.msg_uploads.specs.Lent.{stepped};
ghost use Rattle.msg_file.specs.Files.{Whole};

use msg_uploads::steps;
use rules::objects::Fault;

fn eds_name(r: &[u8], out: &mut [u8]) -> Result<usize, Fault>
    requires { (setup_size ≤ length r.now) × (le 1 r.now 3 ≤ 32) × (512 ≤ length out.old) }
    ensures { (result, out.new) ≡ told (Gives (tagged_text (setup_from r.now []).eds_name)) out.old }
{
    let e = 78 + base_cells::u8_at(r, 3) as usize;
    msg_attributes::tagged(out, &r[78..e])
}

#[tactic(auto, using(std::proofs::lemmas::Bool::Decides::nat_tests, msg_attributes::specs::Values::bytes_of_2, msg_attributes::specs::Values::bytes_of_4), unfolding(msg_attributes::specs::Told::told, base_cells::specs::Numbers::le_bytes, rules::specs::Objects::file_attributes))]
fn value(r: &[u8], eds: &[u8], n: u32, out: &mut [u8]) -> Result<usize, Fault>
    requires { (setup_size ≤ length r.now) × (le 1 r.now 3 ≤ 32) × (length eds.now ≤ 65535) × (512 ≤ length out.old) }
    ensures { (result, out.new) ≡ told (value_of n (file_attributes (setup_from r.now []) eds.now)) out.old }
{
    match n {
        1 => msg_attributes::bytes(out, &[2]),
        2 => msg_attributes::tagged(out, b"EDS and Icon Files"),
        3 => msg_attributes::bytes(out, &1u16.to_le_bytes()),
        4 => eds_name(r, out),
        5 => msg_attributes::bytes(out, &[base_cells::u8_at(r, 14), base_cells::u8_at(r, 15)]),
        6 => msg_attributes::bytes(out, &(eds.len() as u32).to_le_bytes()),
        7 => msg_attributes::bytes(out, &msg_uploads::checksum(eds).to_le_bytes()),
        8 | 9 | 11 => msg_attributes::bytes(out, &[0]),
        10 => msg_attributes::bytes(out, &[1]),
        _ => Err(Fault::AttributeUnknown),
    }
}

// The services of the EDS: initiate, transfer, and a single attribute, which leaves the position as it is.
#[tactic(auto, using(std::proofs::lemmas::Bool::Decides::nat_tests), unfolding(msg_attributes::specs::Told::told, msg_attributes::specs::Told::wanted, rules::specs::Objects::eds_file))]
fn eds_file(
    r: &[u8],
    eds: &[u8],
    position: &mut [u8],
    service: u8,
    a: Option<u32>,
    given: &[u8],
    out: &mut [u8],
) -> Result<usize, Fault>
    requires { (setup_size ≤ length r.now) × (le 1 r.now 3 ≤ 32) × (length eds.now ≤ 65535) × Whole position.old × (512 ≤ length out.old) }
    ensures { (result, (position.new, out.new)) ≡ stepped (eds_file (setup_from r.now []) eds.now service a given.now (dec_upload position.old)) out.old }
{
    match service {
        0x4B => steps::initiate(base_cells::u8_at(r, 1), eds, position, given, out),
        0x4F => steps::transfer(eds, position, given, out),
        _ => value(r, eds, msg_attributes::wanted(service, a)?, out),
    }
}

// The class, the EDS, or no instance.
#[tactic(auto, using(std::proofs::lemmas::Bool::Decides::nat_tests), unfolding(msg_attributes::specs::Told::told, rules::specs::Objects::file))]
pub fn file(
    r: &[u8],
    eds: &[u8],
    position: &mut [u8],
    service: u8,
    instance: u32,
    a: Option<u32>,
    given: &[u8],
    out: &mut [u8],
) -> Result<usize, Fault>
    requires { (setup_size ≤ length r.now) × (le 1 r.now 3 ≤ 32) × (length eds.now ≤ 65535) × Whole position.old × (512 ≤ length out.old) }
    ensures { (result, (position.new, out.new)) ≡ stepped (file (setup_from r.now []) eds.now service instance a given.now (dec_upload position.old)) out.old }
{
    match instance {
        0 => msg_attributes::class(service, a, out),
        0xC8 => eds_file(r, eds, position, service, a, given, out),
        _ => Err(Fault::ObjectUnknown),
    }
}
