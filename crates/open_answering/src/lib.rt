// An open over a state that passed its test: the checks, then the new connection, its events, its configuration data and its reply.
// Nothing is written before the last check and the reply's room are known.
#![tactic(auto)]

pub mod asking;
pub mod making;
pub mod placing;
