// What the application's calls share: their answers. Each call is a crate of its own: `app_inputs`, `app_outputs`,
// `app_queue`, `app_counts`, `app_listing`. Each is given a state that passed the state test; its contract is the call of the rules, lifted to bytes.
#![tactic(auto)]

pub mod answers;
