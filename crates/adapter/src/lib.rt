// What a host calls. Each tests the lent state and calls one function down; `adapter_c` exports them to C. docs/INTERFACE.md says what a
// host gives and gets.
#![tactic(auto)]

pub mod app_calls;
pub mod app_setup;
pub mod conn_calls;
pub mod io_calls;
pub mod msg_calls;
pub mod msg_routes;
pub mod open_calls;
