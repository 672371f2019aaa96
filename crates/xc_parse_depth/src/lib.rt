//! How deep stretches of a text nest.
#![tactic(auto)]

mod stretch;

pub use stretch::{Stretch, first_deeper};
