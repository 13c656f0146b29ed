// The checks of an open that read the request and the setup's numbers: rules 6.1, 6.2, 6.3, 6.6 and 6.7, over the lent bytes. One
// function for each; what stops an open carries the value found and what would have passed.
#![tactic(auto)]

pub mod key;
pub mod request;
