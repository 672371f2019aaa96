//! Stable loops: loops whose addresses may be told before they run, and where another loop first breaks a rule.
#![tactic(auto)]

mod breach;
mod inner;
mod steady;
mod walk;
mod whole;

pub use breach::{Breach, Rule};
pub use whole::first_unstable;
