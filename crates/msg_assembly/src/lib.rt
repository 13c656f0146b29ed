// Assembly, class 0x04: the data of an assembly of any kind, and its size.
#![tactic(auto)]

ghost use Rattle.std.specs.Prelude.{◌≡◌, ℕ, ◌≤◌, ◌<◌, [], length};
ghost use Rattle.rules.specs.Lists.{place};
ghost use Rattle.rules.specs.State.{content_at};
ghost use Rattle.rules.specs.Attributes.{value_of, single};
ghost use Rattle.rules.specs.Objects.{largest_instance, assembly_class, assembly_attributes, assembly};
ghost use Rattle.state_rules.specs.Setups.{shape_in, setup_from, shapes_of};
ghost use Rattle.state_rules.specs.Image.{view};
ghost use Rattle.app_answers.specs.Outcomes.{Passed};
ghost use Rattle.state_rules.specs.Places.{setup_size, assemblies_of};
ghost use Rattle.msg_attributes.specs.Told.{told};
ghost use Rattle.msg_assembly.specs.Instances.{has_instance};

use rules::objects::Fault;

// The first assembly of that instance, in the setup's region.
fn find(r: &[u8], instance: u32) -> Option<usize>
    requires { (setup_size ≤ length r.now) × (assemblies_of r.now ≤ 16) }
    ensures { result ≡ place (has_instance instance) (shapes_of r.now) }
{
    let n = base_cells::u8_at(r, 0) as usize;
    (0..n).find(|&i| u32::from(state_layout::instance_at(r, i)) == instance)
}

fn largest(r: &[u8]) -> u16
    requires { (setup_size ≤ length r.now) × (assemblies_of r.now ≤ 16) }
    ensures { result ≡ largest_instance (shapes_of r.now) }
{
    let n = base_cells::u8_at(r, 0) as usize;
    let mut most: u16 = 0;
    for i in 0..n {
        most = most.max(state_layout::instance_at(r, i));
    }
    most
}

#[tactic(auto, using(std::proofs::lemmas::Bool::Decides::nat_tests, msg_attributes::specs::Values::bytes_of_2), unfolding(msg_attributes::specs::Told::told, msg_attributes::specs::Told::wanted, base_cells::specs::Numbers::le_bytes, rules::specs::Objects::assembly_class))]
fn class(r: &[u8], service: u8, a: Option<u32>, out: &mut [u8]) -> Result<usize, Fault>
    requires { (setup_size ≤ length r.now) × (assemblies_of r.now ≤ 16) × (512 ≤ length out.old) }
    ensures { (result, out.new) ≡ told (single service a (assembly_class (setup_from r.now []))) out.old }
{
    match msg_attributes::wanted(service, a)? {
        1 => msg_attributes::bytes(out, &2u16.to_le_bytes()),
        2 => msg_attributes::bytes(out, &largest(r).to_le_bytes()),
        _ => Err(Fault::AttributeUnknown),
    }
}

#[tactic(auto, using(std::proofs::lemmas::Bool::Decides::nat_tests), unfolding(msg_attributes::specs::Told::told, msg_attributes::specs::Told::wanted, rules::specs::Objects::assembly_attributes))]
fn here(s: &[u8], i: usize, service: u8, a: Option<u32>, out: &mut [u8]) -> Result<usize, Fault>
    requires { Passed s.now × (i < assemblies_of s.now) × (512 ≤ length out.old) }
    ensures { (result, out.new) ≡ told (single service a (assembly_attributes (content_at (view s.now) i))) out.old }
{
    let n = msg_attributes::wanted(service, a)?;
    let size = state_layout::size_at(s, i);
    match n {
        3 => {
            let from = state_layout::DATA + i * state_layout::SLOT;
            msg_attributes::bytes(out, &s[from..from + size as usize])
        }
        4 => msg_attributes::bytes(out, &size.to_le_bytes()),
        _ => Err(Fault::AttributeUnknown),
    }
}

pub fn assembly(
    s: &[u8],
    service: u8,
    instance: u32,
    a: Option<u32>,
    out: &mut [u8],
) -> Result<usize, Fault>
    requires { Passed s.now × (512 ≤ length out.old) }
    ensures { (result, out.new) ≡ told (assembly (view s.now) service instance a) out.old }
{
    if instance == 0 {
        return class(&s[0..state_layout::SETUP_SIZE], service, a, out);
    }
    let i = find(&s[0..state_layout::SETUP_SIZE], instance).ok_or(Fault::ObjectUnknown)?;
    here(s, i, service, a, out)
}
