//! Choosers, schedules and runs of the machine, each call with its contract once more: an edit of the call shows what
//! the contract refuses.
#![tactic(auto)]

mod choices;
mod runs;

pub use choices::{by_record, by_seed, in_turn, nth, printed, printed_again};
pub use runs::{run, step};
