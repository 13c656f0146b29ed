// The definition of the adapter: docs/RULES.md in the checker's language, rule by rule. This crate has types and definitions, no code.
// Here stand the types that code passes by value; specs/State.antt has the whole state, and the other files of specs/
// the rules, in its order and words.
#![tactic(auto)]

pub mod objects;

use base_ids::{OtId, ToId, Triad};
use wire_rules::NetType;

// What an assembly is for: 1, 2 and 3 in numbers.
#[derive(Clone, Copy)]
pub enum AssemblyKind {
    Input,
    Output,
    Config,
}

// Who a connection serves: the owner of an output, or a reader with a heartbeat of its own.
#[derive(Clone, Copy)]
pub enum Kind {
    Owner,
    InputOnly,
    ListenOnly,
}

// An IPv4 address and a UDP port.
#[derive(Clone, Copy)]
pub struct Socket {
    pub address: u32,
    pub port: u16,
}

// What never changes of a connection after its open. The input and the output are places in the setup's list of
// assemblies; the output counts for an owner only and is 0 for others.
#[derive(Clone, Copy)]
pub struct Fixed {
    pub kind: Kind,
    pub triad: Triad,
    pub originator: u32,
    pub otid: OtId,
    pub toid: ToId,
    pub otrpi: u32,
    pub multiplier: u8,
    pub torpi: u32,
    pub input: u8,
    pub output: u8,
    pub dest: Socket,
    pub multicast: bool,
    pub local: u32,
}

// What the originator's frames alone change: the time until which the connection lives without another frame (its
// last receive time, or its open time, plus its timeout), and the last sequence and CIP sequence, if there was any.
// `any` and `anycip` stay beside their numbers, since the lent row holds a number there that an Option would lose: store_view has every byte back.
#[derive(Clone, Copy)]
pub struct Heard {
    pub until: u64,
    pub any: bool,
    pub sequence: u32,
    pub anycip: bool,
    pub cip: u16,
}

// What produce and hand-over alone change; one that joined another's stream does not produce, and is never due.
#[derive(Clone, Copy)]
pub struct Sent {
    pub sequence: u32,
    pub cip: u16,
    pub due: Option<u64>,
}

#[derive(Clone, Copy)]
pub struct Conn {
    pub fixed: Fixed,
    pub heard: Heard,
    pub sent: Sent,
}

// What the host is told of a connection: its assemblies by instance and size, both 0 for no output.
#[derive(Clone, Copy)]
pub struct Info {
    pub kind: Kind,
    pub originator: u32,
    pub otrpi: u32,
    pub torpi: u32,
    pub input: u16,
    pub inputsize: u16,
    pub output: u16,
    pub outputsize: u16,
    pub multicast: bool,
    pub otid: OtId,
    pub toid: ToId,
}

// What the host is told.
#[derive(Clone, Copy)]
pub enum Event {
    Opened(Info),
    Closed(Info),
    TimedOut(Info),
    Configured { instance: u16, length: u16 },
    OutputChanged(u16),
}

// Where an open came from: the originator, the local address that it arrived on with its mask, the T→O socket address
// of the request if one was given, and the port of class 1 frames.
#[derive(Clone, Copy)]
pub struct Origin {
    pub peer: u32,
    pub local: u32,
    pub mask: u32,
    pub socket: Option<Socket>,
    pub ioport: u16,
}

// The first check (rules 6.1 to 6.13) that an open does not pass, with the value found and what would have passed.
#[derive(Clone, Copy)]
pub enum Stop {
    // 6.1: the transport byte
    Transport(u8),
    // 6.2: where the path does not parse; a port or attribute segment
    PathBroken(usize),
    PathBarred,
    // 6.3: a key that is not ours
    KeyVendor {
        found: u16,
        ours: u16,
    },
    KeyProduct {
        found: u16,
        ours: u16,
    },
    KeyDevice {
        found: u16,
        ours: u16,
    },
    KeyRevision {
        major: u8,
        minor: u8,
        ourmajor: u8,
        ourminor: u8,
    },
    // 6.4: the last class, if any, is not 4; how many instances and points (4 for more); points that we do not have
    ClassNotFour(Option<u32>),
    NumberCount(usize),
    NoOutputPoint(u32),
    NoInputPoint(u32),
    // 6.5: configuration data without a configuration assembly, or of another length than its size
    NoConfig {
        length: usize,
    },
    ConfigLength {
        found: usize,
        size: u16,
    },
    // 6.6: an RPI outside the range
    OtRpi {
        found: u32,
        min: u32,
        max: u32,
    },
    ToRpi {
        found: u32,
        min: u32,
        max: u32,
    },
    // 6.7: how the directions are carried
    OtType(NetType),
    ToType(NetType),
    // 6.8: the O→T size of an owner, and of a heartbeat
    OwnerSize {
        found: u32,
        wanted: u16,
    },
    HeartbeatSize(u32),
    // 6.9: the T→O size
    InputSize {
        found: u32,
        wanted: u16,
    },
    // 6.10: the triad is in use
    TriadInUse,
    // 6.11: the output, by its instance, has an owner
    Owned(u16),
    // 6.12: a listen-only open without a stream, multicast or not
    NoStream,
    ListenPointToPoint,
    // 6.13: the table is full
    Full,
}

// A stream that an open joins: its T→O id, destination and RPI.
#[derive(Clone, Copy)]
pub struct Stream {
    pub toid: ToId,
    pub dest: Socket,
    pub torpi: u32,
}

// What the points of an open come to: the output counts for an owner only and is 0 for others.
#[derive(Clone, Copy)]
pub struct Roles {
    pub kind: Kind,
    pub input: u8,
    pub output: u8,
    pub config: Option<u8>,
}

// What an open that passes every check comes to.
#[derive(Clone, Copy)]
pub struct Plan {
    pub kind: Kind,
    pub input: u8,
    pub output: u8,
    // the place in the setup's list of the assembly that takes the configuration data, if there is any
    pub stores: Option<u8>,
    // an open that joins none sends a stream of its own
    pub stream: Option<Stream>,
}

// The reasons for no, but for a failed check of an open (chapter 2); that the lent state is of the wrong size or fails its test, No. 1, is said
// where bytes are known.
#[derive(Clone, Copy)]
pub enum No {
    BadSetup,
    BadTime,
    NotParsed,
    NoAssembly,
    TooLong,
    NoRoom,
    NothingThere,
}
