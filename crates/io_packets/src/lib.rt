// One connection's packet: when it is due, how the connection steps, and the packet's bytes.
#![tactic(auto)]

ghost use Rattle.std.specs.Prelude.{◌≡◌, true, false, ◌+◌, ◌*◌, ◌≤◌, ◌<◌, length};
ghost use Rattle.std.proofs.lemmas.List.Edits.{sets};
ghost use Rattle.base_cells.specs.Records.{of_bool};
ghost use Rattle.rules.specs.Producing.{due_by, next_time, next_due};
ghost use Rattle.state_rules.specs.Rows.{of_due};
ghost use Rattle.state_rules.specs.Places.{state_size};
ghost use Rattle.state_image.specs.Holds.{Ready, Slotted};
ghost use Rattle.io_packets.specs.Steps.{stepped, head, packet_of, Data};

use rules::{Fixed, Sent};

// Where an assembly's bytes are.
#[derive(Clone, Copy)]
pub struct Part {
    pub at: usize,
    pub size: usize,
}

// ---- one connection

pub fn is_due(d: Option<u64>, time: u64) -> bool
    ensures { result ≡ due_by time d }
{
    match d {
        None => false,
        Some(t) => t <= time,
    }
}

// The old due time plus the RPI; if that is not after now, now plus the RPI.
fn next_time(t: u64, rpi: u32, time: u64) -> u64
    requires { (t ≤ time) × (time < 9223372036854775808) }
    ensures { (result ≡ next_time time rpi t) × (result < 18446744073709551615) }
{
    let n = t + (rpi as u64);
    if n <= time { time + (rpi as u64) } else { n }
}

fn next_due(d: Option<u64>, rpi: u32, time: u64) -> Option<u64>
    requires { (due_by time d ≡ true) × (time < 9223372036854775808) }
    ensures { (result ≡ next_due time rpi d) × (of_due result < 18446744073709551616) }
{
    match d {
        None => None,
        Some(t) => {
            let n = next_time(t, rpi, time);
            Some(n)
        }
    }
}

// Both sequences step by one.
pub fn step(x: Sent, rpi: u32, time: u64) -> Sent
    requires { (due_by time x.due ≡ true) × (time < 9223372036854775808) }
    ensures { (result ≡ stepped time rpi x) × (of_due result.due < 18446744073709551616) }
{
    let d = x.due;
    let due = next_due(d, rpi, time);
    Sent {
        sequence: x.sequence.wrapping_add(1),
        cip: x.cip.wrapping_add(1),
        due: due,
    }
}

// ---- its packet

fn write_head(o: &mut [u8], address: u32, port: u16, multicast: bool, local: u32, n: u16)
    requires { 13 ≤ length o.old }
    ensures { o.new ≡ sets o.old 0 (head address port (of_bool multicast) local n) }
{
    base_cells::put_be32(o, 0, address);
    base_cells::put_be16(o, 4, port);
    base_cells::put_bool(o, 6, multicast);
    base_cells::put_be32(o, 7, local);
    base_cells::put_be16(o, 11, n);
}

// The rest of the output behind the head is lent to the frame writer.
pub fn write_packet(o: &mut [u8], f: Fixed, x: Sent, d: &[u8])
    requires { (length d.now ≤ 512) × (33 + length d.now ≤ length o.old) }
    ensures { o.new ≡ sets o.old 0 (packet_of f x d.now) }
{
    let n = 20 + d.len();
    write_head(
        o,
        f.dest.address,
        f.dest.port,
        f.multicast,
        f.local,
        n as u16,
    );
    let id = f.toid;
    wire_frames::append_io(o, 13, id, x.sequence, x.cip, d);
}

// The bytes of the assembly at a place of the setup's list; none where there is no such place.
pub fn data_of(s: &[u8], input: u8) -> Part
    requires { Ready s.now × Slotted s.now }
    ensures { (result.at + result.size ≤ state_size) × (result.size ≤ 512) × Data input s.now result.at result.size }
{
    let n = base_cells::u8_at(s, 0) as usize;
    let i = input as usize;
    if n <= i {
        return Part { at: 0, size: 0 };
    }
    Part {
        at: state_layout::DATA + i * state_layout::SLOT,
        size: state_layout::size_at(s, i) as usize,
    }
}
