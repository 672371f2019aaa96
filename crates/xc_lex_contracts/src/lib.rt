//! Tokens and constants, each call with its contract once more: an edit of the call shows what the contract refuses.
#![tactic(auto)]

mod tokens;

pub use tokens::{lexed, number};
