//! Straight programs over global integers have one meaning, by themselves and as programs of the whole language. The crate has
//! definitions and laws alone.
#![tactic(auto)]

mod laws;

pub use laws::straight_programs;
