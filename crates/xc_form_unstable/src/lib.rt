//! Where the loop with a number first breaks a rule of stable loops.
#![tactic(auto)]

mod loops;
mod unstable;

pub use unstable::first_unstable;
