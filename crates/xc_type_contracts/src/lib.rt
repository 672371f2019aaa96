//! Types, names and faults, each call with its contract once more: an edit of the call shows what the contract
//! refuses.
#![tactic(auto)]

mod names;
mod types;

pub use names::{find, is_new};
pub use types::{common, note, read_kind, value, write_kind};
