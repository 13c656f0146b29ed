// The checks of an open that read the table: 10 to 13, and the stream that an open joins. Only the bytes that are compared are read
// from a row that does not pass.
#![tactic(auto)]

pub mod joining;
pub mod owning;
pub mod table;
