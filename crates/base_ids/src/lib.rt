// The names of a connection. O→T ids and T→O ids are separate numberings, so each has a type of its own: a frame to us
// carries an OtId, a frame from us a ToId, and neither can be looked up as the other.
#![tactic(auto)]

// The id that we chose, which the originator's frames to us carry.
#[derive(Clone, Copy, PartialEq, Eq)]
pub struct OtId(pub u32);

// The id that frames from us carry: the originator's choice if point-to-point, ours if multicast.
#[derive(Clone, Copy, PartialEq, Eq)]
pub struct ToId(pub u32);

// Connection serial, originator vendor and originator serial: what an open and a close name a connection by.
#[derive(Clone, Copy, PartialEq, Eq)]
pub struct Triad {
    pub serial: u16,
    pub vendor: u16,
    pub originator: u32,
}
