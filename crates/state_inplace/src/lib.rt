// The rows of the lent state's table written in place: what produce changes, what a frame changes, a whole row, a row gone. Every
// function here is given the row or the table's region; crate state_layout says what stands where.
#![tactic(auto)]

ghost use Rattle.std.specs.Prelude.{◌≡◌, ℕ, ◌+◌, ◌*◌, ◌/◌, ◌≤◌, ◌<◌, [], ◌∷◌, length};
ghost use Rattle.std.proofs.lemmas.List.Edits.{sets};
ghost use Rattle.base_cells.specs.Numbers.{le};
ghost use Rattle.base_cells.specs.Records.{put_fields, of_bool};
ghost use Rattle.state_rules.specs.Cut.{cut};
ghost use Rattle.state_rules.specs.Rows.{w_sent, w_heard, w_fixed, w_low, w_high, of_due, role_of, list_sent, list_heard, list_fixed, enc_sent, enc_heard, enc_conn};
ghost use Rattle.state_rules.specs.Places.{table_size, row_size};

use rules::{Conn, Fixed, Heard, Kind, Sent};

// ---- numbers for what is no number

fn due_number(d: Option<u64>) -> u64
    requires { of_due d < 18446744073709551616 }
    ensures { result ≡ of_due d }
{
    d.map_or(0, |t| t + 1)
}

// An owner's output, or what the kind is.
fn role_number(k: Kind, output: u8) -> u8
    ensures { result ≡ role_of k output }
{
    match k {
        Kind::Owner => output,
        Kind::InputOnly => 254,
        Kind::ListenOnly => 255,
    }
}

fn carried_number(multicast: bool, input: u8) -> u8
    requires { input ≤ 31 }
    ensures { result ≡ of_bool multicast + 2 * input }
{
    (multicast as u8) + 2 * input
}

fn flags_number(carried: u8, any: bool, anycip: bool) -> u8
    requires { carried ≤ 63 }
    ensures { result ≡ 4 * carried + (of_bool any + 2 * of_bool anycip) }
{
    4 * carried + ((any as u8) + 2 * (anycip as u8))
}

// ---- a row written

fn put_sent_in(row: &mut [u8], s: Sent)
    requires { (row_size ≤ length row.old) × (of_due s.due < 18446744073709551616) }
    ensures { row.new ≡ put_fields w_sent row.old 0 (list_sent s) }
{
    base_cells::put_u64(row, state_layout::DUE, due_number(s.due));
    base_cells::put_u32(row, state_layout::SEQUENCE, s.sequence);
    base_cells::put_u16(row, state_layout::CIP, s.cip);
}

fn put_heard_in(row: &mut [u8], carried: u8, h: Heard)
    requires { (row_size ≤ length row.old) × (carried ≤ 63) }
    ensures { row.new ≡ put_fields w_heard row.old 14 (list_heard carried h) }
{
    base_cells::put_u16(row, state_layout::LAST_CIP, h.cip);
    base_cells::put_u64(row, state_layout::UNTIL, h.until);
    base_cells::put_u32(row, state_layout::LAST_SEQUENCE, h.sequence);
    base_cells::put_u8(
        row,
        state_layout::FLAGS,
        flags_number(carried, h.any, h.anycip),
    );
}

fn put_fixed_low(row: &mut [u8], f: Fixed)
    requires { row_size ≤ length row.old }
    ensures { row.new ≡ put_fields w_low row.old 29 (role_of f.kind f.output ∷ f.dest.port ∷ f.otid.0 ∷ f.originator ∷ f.toid.0 ∷ f.otrpi ∷ []) }
{
    base_cells::put_u8(row, state_layout::ROLE, role_number(f.kind, f.output));
    base_cells::put_u16(row, state_layout::PORT, f.dest.port);
    base_cells::put_u32(row, state_layout::O_T_ID, f.otid.0);
    base_cells::put_u32(row, state_layout::ORIGINATOR, f.originator);
    base_cells::put_u32(row, state_layout::T_O_ID, f.toid.0);
    base_cells::put_u32(row, state_layout::O_T_RPI, f.otrpi);
}

fn put_fixed_high(row: &mut [u8], f: Fixed)
    requires { row_size ≤ length row.old }
    ensures { row.new ≡ put_fields w_high row.old 48 (f.torpi ∷ f.dest.address ∷ f.local ∷ f.triad.serial ∷ f.triad.vendor ∷ f.triad.originator ∷ f.multiplier ∷ []) }
{
    base_cells::put_u32(row, state_layout::T_O_RPI, f.torpi);
    base_cells::put_u32(row, state_layout::ADDRESS, f.dest.address);
    base_cells::put_u32(row, state_layout::LOCAL, f.local);
    base_cells::put_u16(row, state_layout::SERIAL, f.triad.serial);
    base_cells::put_u16(row, state_layout::VENDOR, f.triad.vendor);
    base_cells::put_u32(row, state_layout::ORIGINATOR_SERIAL, f.triad.originator);
    base_cells::put_u8(row, state_layout::MULTIPLIER, f.multiplier);
}

fn put_fixed_in(row: &mut [u8], f: Fixed)
    requires { row_size ≤ length row.old }
    ensures { row.new ≡ put_fields w_fixed row.old 29 (list_fixed f) }
{
    put_fixed_low(row, f);
    put_fixed_high(row, f);
}

fn put_conn_in(row: &mut [u8], c: Conn)
    requires { (row_size ≤ length row.old) × (of_due c.sent.due < 18446744073709551616) × (c.fixed.input ≤ 31) }
    ensures { row.new ≡ sets row.old 0 (enc_conn c) }
{
    put_sent_in(row, c.sent);
    put_heard_in(
        row,
        carried_number(c.fixed.multicast, c.fixed.input),
        c.heard,
    );
    put_fixed_in(row, c.fixed);
}

// ---- rows of the table's region

pub fn put_sent_at(r: &mut [u8], i: usize, s: Sent)
    requires { (i < 32) × (table_size ≤ length r.old) × (of_due s.due < 18446744073709551616) }
    ensures { r.new ≡ sets r.old (i * row_size + 0) (enc_sent s) }
{
    let a = i * state_layout::ROW;
    let e = a + state_layout::ROW;
    put_sent_in(&mut r[a..e], s);
}

// The multicast bit and the input beside the two marks of the flags stay.
pub fn put_heard_at(r: &mut [u8], i: usize, h: Heard)
    requires { (i < 32) × (table_size ≤ length r.old) }
    ensures { r.new ≡ sets r.old (i * row_size + 14) (enc_heard (le 1 r.old (i * row_size + 28) / 4) h) }
{
    let a = i * state_layout::ROW;
    let e = a + state_layout::ROW;
    let carried = base_cells::u8_at(r, a + 28) / 4;
    put_heard_in(&mut r[a..e], carried, h);
}

pub fn put_conn_at(r: &mut [u8], i: usize, c: Conn)
    requires { (i < 32) × (table_size ≤ length r.old) × (of_due c.sent.due < 18446744073709551616) × (c.fixed.input ≤ 31) }
    ensures { r.new ≡ sets r.old (i * row_size + 0) (enc_conn c) }
{
    let a = i * state_layout::ROW;
    let e = a + state_layout::ROW;
    put_conn_in(&mut r[a..e], c);
}

// ---- a row gone

// Row i of n gone: the rows behind it move down, and the last row's place is zero.
pub fn cut_row(r: &mut [u8], n: usize, i: usize)
    requires { (i < n) × (n ≤ 32) × (table_size ≤ length r.old) }
    ensures { r.new ≡ cut n i r.old }
{
    let to = i * state_layout::ROW;
    let last = (n - 1) * state_layout::ROW;
    base_cells::move_down(r, to, to + state_layout::ROW, last - to);
    base_cells::zero(r, last, state_layout::ROW);
}
