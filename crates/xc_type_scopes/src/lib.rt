//! What is declared at a place of a text, and what is found of its parts by that. Each call that allocates answers
//! `AllocError` for want of memory alone; what it changes is then as it may be.
#![tactic(auto)]

mod env;

pub use env::{Env, Outside};
