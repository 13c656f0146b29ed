// The record that tells the host of a connection, 32 bytes: for an event, or for the list of connections. It names the assemblies by
// instance and size, which the setup's region has; the row of the connection has their places.
#![tactic(auto)]

ghost use Rattle.std.specs.Prelude.{◌≡◌, ℕ, ◌+◌, ◌≤◌, ◌<◌, [], ◌∷◌, length};
ghost use Rattle.std.proofs.lemmas.List.Edits.{sets};
ghost use Rattle.base_cells.specs.Records.{put_fields, of_bool};
ghost use Rattle.rules.specs.Events.{kind_number, info_of, info_record};
ghost use Rattle.state_rules.specs.Setups.{setup_from};
ghost use Rattle.state_rules.specs.Places.{setup_size, assemblies_of};
ghost use Rattle.state_records.specs.Fields.{w_low, w_high, list_low, list_high};
ghost use Rattle.state_records.specs.Occasions.{occasion_number};
ghost use Rattle.state_records.specs.Shapes.{shape_of, if_owner};

use rules::{Fixed, Info, Kind};

// Why the host is told of a connection: it asks for the list, or an event.
#[derive(Clone, Copy)]
pub enum Occasion {
    Listed,
    Opened,
    Closed,
    TimedOut,
}

// ---- what is told of a connection

// The instance at a place of the setup's list; 0 past the list.
pub fn instance_of(r: &[u8], i: u8) -> u16
    requires { (setup_size ≤ length r.now) × (assemblies_of r.now ≤ 16) }
    ensures { result ≡ (shape_of r.now i).instance }
{
    if i < base_cells::u8_at(r, 0) {
        state_layout::instance_at(r, i as usize)
    } else {
        0
    }
}

fn size_of(r: &[u8], i: u8) -> u16
    requires { (setup_size ≤ length r.now) × (assemblies_of r.now ≤ 16) }
    ensures { result ≡ (shape_of r.now i).size }
{
    if i < base_cells::u8_at(r, 0) {
        state_layout::size_at(r, i as usize)
    } else {
        0
    }
}

// An owner alone has an output.
fn owned_number(k: Kind, n: u16) -> u16
    ensures { result ≡ if_owner k n }
{
    if state_layout::is_owner(k) { n } else { 0 }
}

// What the host is told of a connection, from its row and the setup's region.
fn info_of(r: &[u8], f: Fixed) -> Info
    requires { (setup_size ≤ length r.now) × (assemblies_of r.now ≤ 16) }
    ensures { result ≡ info_of (setup_from r.now []) f }
{
    Info {
        kind: f.kind,
        originator: f.originator,
        otrpi: f.otrpi,
        torpi: f.torpi,
        input: instance_of(r, f.input),
        inputsize: size_of(r, f.input),
        output: owned_number(f.kind, instance_of(r, f.output)),
        outputsize: owned_number(f.kind, size_of(r, f.output)),
        multicast: f.multicast,
        otid: f.otid,
        toid: f.toid,
    }
}

// ---- the record written

fn kind_number(k: Kind) -> u8
    ensures { result ≡ kind_number k }
{
    match k {
        Kind::Owner => 1,
        Kind::InputOnly => 2,
        Kind::ListenOnly => 3,
    }
}

impl Occasion {
    // The byte that tells it in a record.
    pub fn number(self) -> u8
        ensures { result ≡ occasion_number self }
    {
        match self {
            Occasion::Listed => 0,
            Occasion::Opened => 1,
            Occasion::Closed => 2,
            Occasion::TimedOut => 3,
        }
    }
}

fn put_low(row: &mut [u8], what: u8, i: Info)
    requires { 32 ≤ length row.old }
    ensures { row.new ≡ put_fields w_low row.old 0 (list_low what i) }
{
    base_cells::put_u8(row, 0, what);
    base_cells::put_u8(row, 1, kind_number(i.kind));
    base_cells::put_bool(row, 2, i.multicast);
    base_cells::put_u8(row, 3, 0);
    base_cells::put_u32(row, 4, i.originator);
    base_cells::put_u32(row, 8, i.otrpi);
    base_cells::put_u32(row, 12, i.torpi);
}

fn put_high(row: &mut [u8], i: Info)
    requires { 32 ≤ length row.old }
    ensures { row.new ≡ put_fields w_high row.old 16 (list_high i) }
{
    base_cells::put_u32(row, 16, i.otid.0);
    base_cells::put_u32(row, 20, i.toid.0);
    base_cells::put_u16(row, 24, i.input);
    base_cells::put_u16(row, 26, i.inputsize);
    base_cells::put_u16(row, 28, i.output);
    base_cells::put_u16(row, 30, i.outputsize);
}

// The record at the start of what is lent.
fn put_info(row: &mut [u8], what: u8, i: Info)
    requires { 32 ≤ length row.old }
    ensures { row.new ≡ sets row.old 0 (info_record what i) }
{
    put_low(row, what, i);
    put_high(row, i);
}

// The record of the connection whose row says f, told as `what`: an occasion's number, or any other byte.
pub fn put_record(row: &mut [u8], what: u8, r: &[u8], f: Fixed)
    requires { (32 ≤ length row.old) × (setup_size ≤ length r.now) × (assemblies_of r.now ≤ 16) }
    ensures { row.new ≡ sets row.old 0 (info_record what (info_of (setup_from r.now []) f)) }
{
    put_info(row, what, info_of(r, f));
}
