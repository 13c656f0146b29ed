// Rows of the lent state's table read whole: what a connection is, what was heard of it, what was sent (crates/state_rules/specs/Rows.antt).
#![tactic(auto)]

ghost use Rattle.std.specs.Prelude.{◌≡◌, ◌*◌, ◌≤◌, ◌<◌, length};
ghost use Rattle.state_rules.specs.Places.{table_size, row_size};
ghost use Rattle.state_rules.specs.Rows.{row_at, to_due, kind_in, output_in, multicast_in, input_in, any_in, anycip_in, dec_sent, dec_heard, dec_fixed};

use base_ids::{OtId, ToId, Triad};
use rules::{Fixed, Heard, Kind, Sent, Socket};

// ---- numbers for what is no number

pub fn due_of(n: u64) -> Option<u64>
    ensures { result ≡ to_due n }
{
    n.checked_sub(1)
}

fn kind_in(role: u8) -> Kind
    ensures { result ≡ kind_in role }
{
    match role {
        0..=253 => Kind::Owner,
        254 => Kind::InputOnly,
        255 => Kind::ListenOnly,
    }
}

pub fn output_in(role: u8) -> u8
    ensures { result ≡ output_in role }
{
    if role < 254 { role } else { 0 }
}

pub fn multicast_in(flags: u8) -> bool
    ensures { result ≡ multicast_in flags }
{
    flags / 4 % 2 != 0
}

pub fn input_in(flags: u8) -> u8
    ensures { result ≡ input_in flags }
{
    flags / 4 / 2
}

fn any_in(flags: u8) -> bool
    ensures { result ≡ any_in flags }
{
    flags % 2 != 0
}

fn anycip_in(flags: u8) -> bool
    ensures { result ≡ anycip_in flags }
{
    flags / 2 % 2 != 0
}

// ---- a row read

fn triad_of(row: &[u8]) -> Triad
    requires { row_size ≤ length row.now }
    ensures { result ≡ (dec_fixed row.now).triad }
{
    Triad {
        serial: base_cells::u16_at(row, state_layout::SERIAL),
        vendor: base_cells::u16_at(row, state_layout::VENDOR),
        originator: base_cells::u32_at(row, state_layout::ORIGINATOR_SERIAL),
    }
}

fn dest_of(row: &[u8]) -> Socket
    requires { row_size ≤ length row.now }
    ensures { result ≡ (dec_fixed row.now).dest }
{
    Socket {
        address: base_cells::u32_at(row, state_layout::ADDRESS),
        port: base_cells::u16_at(row, state_layout::PORT),
    }
}

fn fixed_of(row: &[u8]) -> Fixed
    requires { row_size ≤ length row.now }
    ensures { result ≡ dec_fixed row.now }
{
    let flags = base_cells::u8_at(row, state_layout::FLAGS);
    let role = base_cells::u8_at(row, state_layout::ROLE);
    Fixed {
        kind: kind_in(role),
        triad: triad_of(row),
        originator: base_cells::u32_at(row, state_layout::ORIGINATOR),
        otid: OtId(base_cells::u32_at(row, state_layout::O_T_ID)),
        toid: ToId(base_cells::u32_at(row, state_layout::T_O_ID)),
        otrpi: base_cells::u32_at(row, state_layout::O_T_RPI),
        multiplier: base_cells::u8_at(row, state_layout::MULTIPLIER),
        torpi: base_cells::u32_at(row, state_layout::T_O_RPI),
        input: input_in(flags),
        output: output_in(role),
        dest: dest_of(row),
        multicast: multicast_in(flags),
        local: base_cells::u32_at(row, state_layout::LOCAL),
    }
}

fn heard_of(row: &[u8]) -> Heard
    requires { row_size ≤ length row.now }
    ensures { result ≡ dec_heard row.now }
{
    let flags = base_cells::u8_at(row, state_layout::FLAGS);
    Heard {
        until: base_cells::u64_at(row, state_layout::UNTIL),
        any: any_in(flags),
        sequence: base_cells::u32_at(row, state_layout::LAST_SEQUENCE),
        anycip: anycip_in(flags),
        cip: base_cells::u16_at(row, state_layout::LAST_CIP),
    }
}

fn sent_of(row: &[u8]) -> Sent
    requires { row_size ≤ length row.now }
    ensures { result ≡ dec_sent row.now }
{
    Sent {
        sequence: base_cells::u32_at(row, state_layout::SEQUENCE),
        cip: base_cells::u16_at(row, state_layout::CIP),
        due: due_of(base_cells::u64_at(row, state_layout::DUE)),
    }
}

// ---- rows of the table's region

fn row(r: &[u8], i: usize) -> &[u8]
    requires { (i < 32) × (table_size ≤ length r.now) }
    ensures bytes { result.now ≡ row_at r.now i }
    ensures size { length result.now ≡ row_size }
{
    let start = i * state_layout::ROW;
    &r[start..start + state_layout::ROW]
}

pub fn fixed_at(r: &[u8], i: usize) -> Fixed
    requires { (i < 32) × (table_size ≤ length r.now) }
    ensures { result ≡ dec_fixed (row_at r.now i) }
{
    fixed_of(row(r, i))
}

pub fn heard_at(r: &[u8], i: usize) -> Heard
    requires { (i < 32) × (table_size ≤ length r.now) }
    ensures { result ≡ dec_heard (row_at r.now i) }
{
    heard_of(row(r, i))
}

pub fn sent_at(r: &[u8], i: usize) -> Sent
    requires { (i < 32) × (table_size ≤ length r.now) }
    ensures { result ≡ dec_sent (row_at r.now i) }
{
    sent_of(row(r, i))
}
