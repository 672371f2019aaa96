//! When the plan of a loop is sound, as far as memory goes. The crate has definitions and samples alone.
#![tactic(auto)]

mod laws;

pub use laws::samples;
