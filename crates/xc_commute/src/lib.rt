//! Recorded accesses of several threads, and what may be exchanged in their order.
#![tactic(auto)]

mod events;
mod threads;

pub use events::{Event, conflict, gather, swap};
pub use threads::{MemoryThreads, memory_teams_go_back};

#[cfg(test)]
mod tests;
