//! Histories of actions, newest first, and when two of them can be exchanged; and why the team runs of a program, in which the
//! iterations of its open loops interleave, go back to its source runs, in which each loop is serial.
#![tactic(auto)]

mod theorem;
mod two_fills;
mod waits;

pub use theorem::{Threads, team_runs_go_back};
pub use two_fills::{TwoFills, two_fills_go_back};
pub use waits::waits_for_a_loop_that_traps;
