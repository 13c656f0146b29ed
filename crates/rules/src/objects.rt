// What the objects answer with, and where an EDS upload stands: the types that code passes by value.

// Why a message is refused: its general status.
#[derive(Clone, Copy)]
pub enum Fault {
    // 0x04: the path does not parse
    PathSegment,
    // 0x05: the path names no object that is here
    PathUnknown,
    // 0x08: no such service
    ServiceUnknown,
    // 0x0C: a transfer that is not awaited
    StateConflict,
    // 0x13: no attribute, or no service data
    NotEnoughData,
    // 0x14: no such attribute
    AttributeUnknown,
    // 0x16: no such instance
    ObjectUnknown,
}

// A transfer: its number, and the offset in the EDS at which it began.
#[derive(Clone, Copy)]
pub struct Transfer {
    pub number: u8,
    pub offset: u16,
}

// An upload under way: the transfer size, the number and the offset of the next transfer, and the last one, if there was one.
#[derive(Clone, Copy)]
pub struct Position {
    pub size: u8,
    pub next: u8,
    pub offset: u16,
    pub last: Option<Transfer>,
}

// What a transfer's number asks for: the last transfer again, which began at an offset; the next one; or neither.
#[derive(Clone, Copy)]
pub enum Turn {
    Repeat(u16),
    InTurn,
    OutOfTurn,
}
