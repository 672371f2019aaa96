//! Trees whose forms all have code stand for straight programs, by both definitions of what a tree stands for. The crate has no code.
#![tactic(auto)]

mod laws;

pub use laws::straight_trees_agree;
