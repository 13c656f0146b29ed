// What an object answers, as code says it: how many bytes of its data stand at the start of the lent output, or why there are none.
// The writers here put one attribute's value each; the output always has room, since the call asks for it first.
#![tactic(auto)]

ghost use Rattle.std.specs.Prelude.{◌≡◌, ℕ, ◌+◌, ◌≤◌, ◌<◌, [], ◌∷◌, length};
ghost use Rattle.std.proofs.lemmas.List.Edits.{sets};
ghost use Rattle.base_cells.specs.Numbers.{le_bytes};
ghost use Rattle.rules.specs.Attributes.{Gives, short_string, tagged_text, language_tag, single, class_attributes, value_of};
ghost use Rattle.msg_attributes.specs.Told.{told, wanted};

use rules::objects::Fault;

// ---- values

#[tactic(auto, unfolding(crate::specs::Told::told))]
pub fn bytes(out: &mut [u8], d: &[u8]) -> Result<usize, Fault>
    requires { length d.now ≤ length out.old }
    ensures { (result, out.new) ≡ told (Gives d.now) out.old }
{
    base_copies::copy_in(out, 0, d);
    Ok(d.len())
}

// A text with its length before it.
#[tactic(auto, unfolding(crate::specs::Told::told, rules::specs::Attributes::short_string, base_cells::specs::Numbers::put, base_cells::specs::Numbers::le_bytes))]
pub fn text(out: &mut [u8], d: &[u8]) -> Result<usize, Fault>
    requires { (length d.now < 256) × (length d.now < length out.old) }
    ensures { (result, out.new) ≡ told (Gives (short_string d.now)) out.old }
{
    let n = d.len();
    base_cells::put_u8(out, 0, n as u8);
    base_copies::copy_in(out, 1, d);
    Ok(1 + n)
}

// The same behind the language tag.
#[tactic(auto, unfolding(crate::specs::Told::told, rules::specs::Attributes::short_string, rules::specs::Attributes::tagged_text, base_cells::specs::Numbers::put, base_cells::specs::Numbers::le_bytes))]
pub fn tagged(out: &mut [u8], d: &[u8]) -> Result<usize, Fault>
    requires { (length d.now < 256) × (length d.now + 8 ≤ length out.old) }
    ensures { (result, out.new) ≡ told (Gives (tagged_text d.now)) out.old }
{
    let n = d.len();
    base_copies::copy_in(out, 0, b"\x01eng\xDA\x04\x00");
    base_cells::put_u8(out, 7, n as u8);
    base_copies::copy_in(out, 8, d);
    Ok(8 + n)
}

// ---- which attribute

#[tactic(auto, using(std::proofs::lemmas::Bool::Decides::nat_tests), unfolding(crate::specs::Told::wanted))]
pub fn wanted(service: u8, a: Option<u32>) -> Result<u32, Fault>
    ensures { result ≡ wanted service a }
{
    if service != 0x0E {
        return Err(Fault::ServiceUnknown);
    }
    a.ok_or(Fault::NotEnoughData)
}

// What every class but Assembly says of itself.
#[tactic(auto, using(std::proofs::lemmas::Bool::Decides::nat_tests), unfolding(crate::specs::Told::wanted, crate::specs::Told::told, base_cells::specs::Numbers::le_bytes))]
pub fn class(service: u8, a: Option<u32>, out: &mut [u8]) -> Result<usize, Fault>
    requires { 2 ≤ length out.old }
    ensures { (result, out.new) ≡ told (single service a class_attributes) out.old }
{
    match wanted(service, a)? {
        1 | 2 | 3 => bytes(out, &1u16.to_le_bytes()),
        _ => Err(Fault::AttributeUnknown),
    }
}
