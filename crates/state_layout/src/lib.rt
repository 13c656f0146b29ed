// Where the lent state's regions stand, and its shapes, ring and marks as code reads them (crates/state_rules says what they hold).
#![tactic(auto)]

ghost use Rattle.std.specs.Prelude.{◌≡◌, ◌*◌, ◌≤◌, ◌<◌, length};
ghost use Rattle.base_cells.specs.Records.{to_bool};
ghost use Rattle.rules.specs.State.{is_owner};
ghost use Rattle.state_rules.specs.Places.{setup_size, marks_at, table_at, first_of, waiting_of, fault_of, mark_at};
ghost use Rattle.state_rules.specs.Bits.{run_in, notified_in};
ghost use Rattle.state_rules.specs.Setups.{kind_named, shape_in};

use rules::{AssemblyKind, Kind};

// ---- where the regions and their numbers stand, as crates/state_rules/specs/Places.antt has them

pub const STATE_SIZE: usize = 109056;

pub const SETUP_SIZE: usize = 192;

pub const PRODUCED: usize = 192;

pub const LATE: usize = 200;

pub const MAX_LATE: usize = 208;

pub const NEXT_ID: usize = 216;

pub const RING: usize = 220;

pub const CONNECTIONS: usize = 224;

pub const MARKS: usize = 240;

pub const TABLE: usize = 256;

pub const EVENTS: usize = 2560;

pub const DATA: usize = 35328;

pub const EDS: usize = 43520;

// What the ring's word is below.
pub const RING_BOUND: u32 = 2099200;

// A connection's row, an event's record, an assembly's bytes; the setup's columns of instances, sizes and kinds.
pub const ROW: usize = 69;

pub const RECORD: usize = 32;

pub const SLOT: usize = 512;

pub const INSTANCES: usize = 110;

pub const SIZES: usize = 142;

pub const KINDS: usize = 174;

// A row's fields.
pub const DUE: usize = 0;

pub const SEQUENCE: usize = 8;

pub const CIP: usize = 12;

pub const LAST_CIP: usize = 14;

pub const UNTIL: usize = 16;

pub const LAST_SEQUENCE: usize = 24;

pub const FLAGS: usize = 28;

pub const ROLE: usize = 29;

pub const PORT: usize = 30;

pub const O_T_ID: usize = 32;

pub const ORIGINATOR: usize = 36;

pub const T_O_ID: usize = 40;

pub const O_T_RPI: usize = 44;

pub const T_O_RPI: usize = 48;

pub const ADDRESS: usize = 52;

pub const LOCAL: usize = 56;

pub const SERIAL: usize = 60;

pub const VENDOR: usize = 62;

pub const ORIGINATOR_SERIAL: usize = 64;

pub const MULTIPLIER: usize = 68;

pub fn is_owner(k: Kind) -> bool
    ensures { result ≡ is_owner k }
{
    matches!(k, Kind::Owner)
}

// ---- shapes, in the setup's region

fn kind_named(n: u8) -> AssemblyKind
    ensures { result ≡ kind_named n }
{
    match n {
        2 => AssemblyKind::Output,
        3 => AssemblyKind::Config,
        _ => AssemblyKind::Input,
    }
}

pub fn instance_at(r: &[u8], i: usize) -> u16
    requires { (i < 16) × (setup_size ≤ length r.now) }
    ensures { result ≡ (shape_in r.now i).instance }
{
    base_cells::u16_at(r, INSTANCES + i * 2)
}

pub fn size_at(r: &[u8], i: usize) -> u16
    requires { (i < 16) × (setup_size ≤ length r.now) }
    ensures { result ≡ (shape_in r.now i).size }
{
    base_cells::u16_at(r, SIZES + i * 2)
}

pub fn kind_at(r: &[u8], i: usize) -> AssemblyKind
    requires { (i < 16) × (setup_size ≤ length r.now) }
    ensures { result ≡ (shape_in r.now i).kind }
{
    kind_named(base_cells::u8_at(r, KINDS + i))
}

// ---- the ring's word and the marks, in the whole state

pub fn events_waiting(s: &[u8]) -> u32
    requires { marks_at ≤ length s.now }
    ensures { result ≡ waiting_of s.now }
{
    base_cells::u32_at(s, RING) / 2048
}

pub fn first_slot(s: &[u8]) -> u32
    requires { marks_at ≤ length s.now }
    ensures { result ≡ first_of s.now }
{
    base_cells::u32_at(s, RING) / 2 % 1024
}

pub fn faulty(s: &[u8]) -> bool
    requires { marks_at ≤ length s.now }
    ensures { result ≡ to_bool (fault_of s.now) }
{
    base_cells::u32_at(s, RING) % 2 != 0
}

pub fn runs(s: &[u8], i: usize) -> bool
    requires { (i < 16) × (table_at ≤ length s.now) }
    ensures { result ≡ run_in (mark_at s.now i) }
{
    base_cells::u8_at(s, MARKS + i) % 2 != 0
}

// Whether the host was told that there is something to read, and has not read it.
pub fn told(s: &[u8], i: usize) -> bool
    requires { (i < 16) × (table_at ≤ length s.now) }
    ensures { result ≡ notified_in (mark_at s.now i) }
{
    base_cells::u8_at(s, MARKS + i) / 2 % 2 != 0
}
