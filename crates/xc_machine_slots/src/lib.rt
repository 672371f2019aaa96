//! The slots of a machine's processors, the streams in them, and the slot in which a stream starts.
#![tactic(auto)]

mod room;
mod seat;
mod stream;

pub use room::pick;
pub use seat::{Seat, free_seats};
pub use stream::Stream;
