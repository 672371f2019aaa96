//! The accesses to the tagged memory, each with its contract once more and one call: an edit of the call shows what
//! the contract refuses.
#![tactic(auto)]

mod memory;

pub use memory::{access, add, free};
