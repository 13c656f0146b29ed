// Identity, class 0x01.
#![tactic(auto)]

ghost use Rattle.std.specs.Prelude.{◌≡◌, ℕ, ◌≤◌, ◌<◌, length};
ghost use Rattle.base_cells.specs.Numbers.{le};
ghost use Rattle.rules.specs.Attributes.{Gives, short_string, value_of, single};
ghost use Rattle.rules.specs.Objects.{identity_attributes, identity};
ghost use Rattle.state_rules.specs.Setups.{identity_of};
ghost use Rattle.state_rules.specs.Places.{setup_size};
ghost use Rattle.state_rules.specs.Image.{view};
ghost use Rattle.app_answers.specs.Outcomes.{Passed};
ghost use Rattle.msg_attributes.specs.Told.{told};
ghost use Rattle.msg_identity.specs.Table.{identity_table};

use rules::objects::Fault;

fn name(r: &[u8], out: &mut [u8]) -> Result<usize, Fault>
    requires { (setup_size ≤ length r.now) × (le 1 r.now 2 ≤ 32) × (512 ≤ length out.old) }
    ensures { (result, out.new) ≡ told (Gives (short_string (identity_of r.now).name)) out.old }
{
    let e = 46 + base_cells::u8_at(r, 2) as usize;
    msg_attributes::text(out, &r[46..e])
}

#[tactic(auto, using(std::proofs::lemmas::Bool::Decides::nat_tests, msg_attributes::specs::Values::bytes_of_2, msg_attributes::specs::Values::bytes_of_4), unfolding(msg_attributes::specs::Told::told, base_cells::specs::Numbers::le_bytes))]
fn value(r: &[u8], status: u16, n: u32, out: &mut [u8]) -> Result<usize, Fault>
    requires { (setup_size ≤ length r.now) × (le 1 r.now 2 ≤ 32) × (512 ≤ length out.old) }
    ensures { (result, out.new) ≡ told (value_of n (identity_table (identity_of r.now) status)) out.old }
{
    match n {
        1 => msg_attributes::bytes(out, &base_cells::u16_at(r, 8).to_le_bytes()),
        2 => msg_attributes::bytes(out, &base_cells::u16_at(r, 10).to_le_bytes()),
        3 => msg_attributes::bytes(out, &base_cells::u16_at(r, 12).to_le_bytes()),
        4 => msg_attributes::bytes(out, &[base_cells::u8_at(r, 14), base_cells::u8_at(r, 15)]),
        5 => msg_attributes::bytes(out, &status.to_le_bytes()),
        6 => msg_attributes::bytes(out, &base_cells::u32_at(r, 16).to_le_bytes()),
        7 => name(r, out),
        8 => msg_attributes::bytes(out, &[3]),
        _ => Err(Fault::AttributeUnknown),
    }
}

#[tactic(auto, using(std::proofs::lemmas::Bool::Decides::nat_tests, crate::specs::Table::identity_table_lem), unfolding(msg_attributes::specs::Told::told, msg_attributes::specs::Told::wanted))]
fn here(s: &[u8], service: u8, a: Option<u32>, out: &mut [u8]) -> Result<usize, Fault>
    requires { Passed s.now × (512 ≤ length out.old) }
    ensures { (result, out.new) ≡ told (single service a (identity_attributes (view s.now))) out.old }
{
    let n = msg_attributes::wanted(service, a)?;
    let status = msg_status::identity_status(s);
    value(&s[0..state_layout::SETUP_SIZE], status, n, out)
}

#[tactic(auto, using(std::proofs::lemmas::Bool::Decides::nat_tests), unfolding(rules::specs::Objects::identity, msg_attributes::specs::Told::told))]
pub fn identity(
    s: &[u8],
    service: u8,
    instance: u32,
    a: Option<u32>,
    out: &mut [u8],
) -> Result<usize, Fault>
    requires { Passed s.now × (512 ≤ length out.old) }
    ensures { (result, out.new) ≡ told (identity (view s.now) service instance a) out.old }
{
    match instance {
        0 => msg_attributes::class(service, a, out),
        1 => here(s, service, a, out),
        _ => Err(Fault::ObjectUnknown),
    }
}
