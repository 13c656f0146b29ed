// Check 3: the key of the path is ours.
ghost use Rattle.std.specs.Prelude.{◌≡◌, ◌&&◌, ◌||◌, ◌≤◌, ltb, length};
ghost use Rattle.std.specs.Result.{result_err};
ghost use Rattle.wire_rules.specs.Transport.{compatible_bit};
ghost use Rattle.rules.specs.Checks.{any_or, revision_ok, key_stop, key_check};
ghost use Rattle.state_rules.specs.Setups.{identity_of};
ghost use Rattle.state_rules.specs.Places.{setup_size};

use rules::Stop;
use wire_rules::{ConnectionPath, Key};

fn any_or(ours: u16, asked: u16) -> bool
    ensures { result ≡ any_or ours asked }
{
    asked == 0 || asked == ours
}

fn minor_ok(ours: u8, k: Key) -> bool
    ensures { result ≡ (any_or ours k.minor || compatible_bit k.major && ltb k.minor ours) }
{
    k.minor == 0 || k.minor == ours || wire_numbers::compatible(k.major) && k.minor < ours
}

#[tactic(auto, unfolding(rules::specs::Checks::revision_ok))]
fn revision_ok(r: &[u8], k: Key) -> bool
    requires { setup_size ≤ length r.now }
    ensures { result ≡ revision_ok (identity_of r.now) k }
{
    let asked = wire_numbers::major_of(k.major);
    asked == 0 || asked == base_cells::u8_at(r, 14) && minor_ok(base_cells::u8_at(r, 15), k)
}

#[tactic(auto, unfolding(rules::specs::Checks::must, rules::specs::Checks::and_then, rules::specs::Checks::key_stop))]
fn stop_of(r: &[u8], k: Key) -> Result<(), Stop>
    requires { setup_size ≤ length r.now }
    ensures { result_err result ≡ key_stop (identity_of r.now) k }
{
    let vendor = base_cells::u16_at(r, 8);
    if !any_or(vendor, k.vendor) {
        return Err(Stop::KeyVendor {
            found: k.vendor,
            ours: vendor,
        });
    }
    let product = base_cells::u16_at(r, 12);
    if !any_or(product, k.product) {
        return Err(Stop::KeyProduct {
            found: k.product,
            ours: product,
        });
    }
    let device = base_cells::u16_at(r, 10);
    if !any_or(device, k.device) {
        return Err(Stop::KeyDevice {
            found: k.device,
            ours: device,
        });
    }
    if !revision_ok(r, k) {
        return Err(Stop::KeyRevision {
            major: k.major,
            minor: k.minor,
            ourmajor: base_cells::u8_at(r, 14),
            ourminor: base_cells::u8_at(r, 15),
        });
    }
    Ok(())
}

// A path without a key asks for nothing.
#[tactic(auto, unfolding(rules::specs::Checks::key_check))]
pub fn key(r: &[u8], p: ConnectionPath) -> Result<(), Stop>
    requires { setup_size ≤ length r.now }
    ensures { result_err result ≡ key_check (identity_of r.now) p }
{
    match p.key {
        Some(k) => stop_of(r, k),
        None => Ok(()),
    }
}
