// The C functions as C calls them: each is the function of its name in `adapter`, under the same clauses, and exported. docs/INTERFACE.md
// says what a host gives and gets.
#![tactic(auto)]

pub mod app_calls;
pub mod app_setup;
pub mod conn_calls;
pub mod io_calls;
pub mod msg_calls;
pub mod msg_routes;
pub mod open_calls;
