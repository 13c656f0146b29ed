// What bytes on the wire say: the definitions of items, paths, requests, opens, closes and replies (docs/RULES.md, chapters 3 to 5), and the
// types that code passes them in. This crate has types and definitions, no code; specs/ has one file for each.
#![tactic(auto)]

use base_ids::{OtId, ToId, Triad};

// A place in a list and how many items are to come.
#[derive(Clone, Copy)]
pub struct Cursor {
    pub at: usize,
    pub left: usize,
}

#[derive(Clone, Copy)]
pub enum Step {
    Item {
        kind: u16,
        start: usize,
        len: usize,
        next: Cursor,
    },
    End,
    Broken(usize),
}

// What a frame is: an I/O frame with the place of its payload (CIP sequence first), another list of items, or no list.
#[derive(Clone, Copy)]
pub enum IoFrame {
    Io {
        id: OtId,
        sequence: u32,
        start: usize,
        len: usize,
    },
    NotIo,
    Broken(usize),
}

// An electronic key (format 4). The major revision carries the compatibility bit 0x80.
#[derive(Clone, Copy)]
pub struct Key {
    pub vendor: u16,
    pub device: u16,
    pub product: u16,
    pub major: u8,
    pub minor: u8,
}

// One segment. The link of a port and the bytes of a data segment lie in the path, at start.
#[derive(Clone, Copy)]
pub enum Seg {
    Port { port: u16, start: usize, len: usize },
    Class(u32),
    Instance(u32),
    Point(u32),
    Attribute(u32),
    Keyed(Key),
    Data { start: usize, len: usize },
}

// What a reader finds at a place of a path: a segment and where it ends, the path's end, or the offset that does not parse.
#[derive(Clone, Copy)]
pub enum SegStep {
    Segment { seg: Seg, next: usize },
    End,
    Broken(usize),
}

// What an open reads of a path: whether a port or attribute segment bars it, the last key and the last class, if any, the first three
// instances and points with their count (at most 4), and the place of the last data segment.
#[derive(Clone, Copy)]
pub struct ConnectionPath {
    pub barred: bool,
    pub key: Option<Key>,
    pub class: Option<u32>,
    pub count: usize,
    pub first: u32,
    pub second: u32,
    pub third: u32,
    pub datastart: usize,
    pub datalen: usize,
}

// The object that a path names. Instance 0 is the class itself.
#[derive(Clone, Copy)]
pub struct Object {
    pub class: u32,
    pub instance: u32,
}

// A request: the object and the first attribute that its path names, if it names any, and where its data begins.
#[derive(Clone, Copy)]
pub struct Request {
    pub service: u8,
    pub object: Option<Object>,
    pub attribute: Option<u32>,
    pub datastart: usize,
}

// How a connection is carried in one direction.
#[derive(Clone, Copy)]
pub enum NetType {
    Null,
    Multicast,
    PointToPoint,
    Reserved,
}

// The network connection parameters of one direction.
#[derive(Clone, Copy)]
pub struct NetParams {
    pub size: u32,
    pub variable: bool,
    pub net: NetType,
}

// One direction of a connection, as an open asks for it.
#[derive(Clone, Copy)]
pub struct Way {
    pub rpi: u32,
    pub params: NetParams,
}

// Bytes of the request, by where they begin and how many they are.
#[derive(Clone, Copy)]
pub struct Place {
    pub start: usize,
    pub len: usize,
}

// A Forward Open or Large Forward Open request.
#[derive(Clone, Copy)]
pub struct ForwardOpen {
    pub otid: OtId,
    pub toid: ToId,
    pub triad: Triad,
    pub multiplier: u8,
    pub ot: Way,
    pub to: Way,
    pub transport: u8,
    pub path: Place,
}
