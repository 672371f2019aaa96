//! Numbers and words of lines, each call with its contract once more: an edit of the call shows what the contract
//! refuses.
#![tactic(auto)]

mod line;

pub use line::{bytes, number, number_below, push_bytes, signed_number, words};
