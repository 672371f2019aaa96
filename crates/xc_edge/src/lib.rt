//! The outside, as a compiler sees it: where texts come from, and where they go.
#![tactic(auto)]

pub mod memory;
pub mod real;
pub mod shelf;
pub mod sink;

pub use memory::{MemShelf, MemSink};
pub use real::{DirShelf, StdSink};
pub use shelf::{Fetch, Shelf};
pub use sink::{Failed, Sink, put_all};
