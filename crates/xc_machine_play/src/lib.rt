//! Code that is run as options say.
#![tactic(auto)]

mod outcome;
mod source;

pub use outcome::{Ending, Outcome, play};
pub use source::{Plan, Source};
