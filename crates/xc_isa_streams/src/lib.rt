//! Each stream of the machine by itself: every run of code, cut down to one stream, is a run of that stream alone, with the replies
//! that the memory gave it. The crate has definitions, one theorem, and a small code that it speaks of.
#![tactic(auto)]

mod theorem;
mod witness;

pub use theorem::{Streams, never_bad_is_own, runs_stand, sources_apply};
pub use witness::two_streams;
