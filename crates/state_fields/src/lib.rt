// One field of a row of the lent state's table (crates/state_rules/specs/Rows.antt).
#![tactic(auto)]

ghost use Rattle.std.specs.Prelude.{◌≡◌, ◌*◌, ◌≤◌, ◌<◌, length};
ghost use Rattle.rules.specs.State.{is_owner, is_listener};
ghost use Rattle.state_rules.specs.Places.{table_size};
ghost use Rattle.state_rules.specs.Rows.{row_at, of_due, dec_sent, dec_heard, dec_fixed};

use base_ids::{OtId, ToId, Triad};

// What a search along the table compares, without the rest of the row.
pub fn otid_at(r: &[u8], i: usize) -> OtId
    requires { (i < 32) × (table_size ≤ length r.now) }
    ensures { result ≡ (dec_fixed (row_at r.now i)).otid }
{
    OtId(base_cells::u32_at(r, i * state_layout::ROW + state_layout::O_T_ID))
}

pub fn originator_at(r: &[u8], i: usize) -> u32
    requires { (i < 32) × (table_size ≤ length r.now) }
    ensures { result ≡ (dec_fixed (row_at r.now i)).originator }
{
    base_cells::u32_at(r, i * state_layout::ROW + state_layout::ORIGINATOR)
}

pub fn toid_at(r: &[u8], i: usize) -> ToId
    requires { (i < 32) × (table_size ≤ length r.now) }
    ensures { result ≡ (dec_fixed (row_at r.now i)).toid }
{
    ToId(base_cells::u32_at(r, i * state_layout::ROW + state_layout::T_O_ID))
}

pub fn torpi_at(r: &[u8], i: usize) -> u32
    requires { (i < 32) × (table_size ≤ length r.now) }
    ensures { result ≡ (dec_fixed (row_at r.now i)).torpi }
{
    base_cells::u32_at(r, i * state_layout::ROW + state_layout::T_O_RPI)
}

pub fn triad_at(r: &[u8], i: usize) -> Triad
    requires { (i < 32) × (table_size ≤ length r.now) }
    ensures { result ≡ (dec_fixed (row_at r.now i)).triad }
{
    Triad {
        serial: base_cells::u16_at(r, i * state_layout::ROW + state_layout::SERIAL),
        vendor: base_cells::u16_at(r, i * state_layout::ROW + state_layout::VENDOR),
        originator: base_cells::u32_at(r, i * state_layout::ROW + state_layout::ORIGINATOR_SERIAL),
    }
}

pub fn multicast_at(r: &[u8], i: usize) -> bool
    requires { (i < 32) × (table_size ≤ length r.now) }
    ensures { result ≡ (dec_fixed (row_at r.now i)).multicast }
{
    state_rows::multicast_in(base_cells::u8_at(r, i * state_layout::ROW + state_layout::FLAGS))
}

pub fn input_at(r: &[u8], i: usize) -> u8
    requires { (i < 32) × (table_size ≤ length r.now) }
    ensures { result ≡ (dec_fixed (row_at r.now i)).input }
{
    state_rows::input_in(base_cells::u8_at(r, i * state_layout::ROW + state_layout::FLAGS))
}

pub fn output_at(r: &[u8], i: usize) -> u8
    requires { (i < 32) × (table_size ≤ length r.now) }
    ensures { result ≡ (dec_fixed (row_at r.now i)).output }
{
    state_rows::output_in(base_cells::u8_at(r, i * state_layout::ROW + state_layout::ROLE))
}

pub fn owns_at(r: &[u8], i: usize) -> bool
    requires { (i < 32) × (table_size ≤ length r.now) }
    ensures { result ≡ is_owner (dec_fixed (row_at r.now i)).kind }
{
    base_cells::u8_at(r, i * state_layout::ROW + state_layout::ROLE) < 254
}

pub fn listens_at(r: &[u8], i: usize) -> bool
    requires { (i < 32) × (table_size ≤ length r.now) }
    ensures { result ≡ is_listener (dec_fixed (row_at r.now i)).kind }
{
    base_cells::u8_at(r, i * state_layout::ROW + state_layout::ROLE) > 254
}

pub fn until_at(r: &[u8], i: usize) -> u64
    requires { (i < 32) × (table_size ≤ length r.now) }
    ensures { result ≡ (dec_heard (row_at r.now i)).until }
{
    base_cells::u64_at(r, i * state_layout::ROW + state_layout::UNTIL)
}

pub fn due_at(r: &[u8], i: usize) -> Option<u64>
    requires { (i < 32) × (table_size ≤ length r.now) }
    ensures { result ≡ (dec_sent (row_at r.now i)).due }
{
    state_rows::due_of(base_cells::u64_at(r, i * state_layout::ROW))
}

// 0 for never, else the due time and one.
pub fn due_number_at(r: &[u8], i: usize) -> u64
    requires { (i < 32) × (table_size ≤ length r.now) }
    ensures { result ≡ of_due (dec_sent (row_at r.now i)).due }
{
    base_cells::u64_at(r, i * state_layout::ROW)
}
