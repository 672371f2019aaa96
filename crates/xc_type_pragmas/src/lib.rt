//! Pragmas: what each says (C99 6.10.6), and what those before a loop set together.
#![tactic(auto)]

mod read;
mod set;
mod words;

pub use read::{Pragma, read_pragma};
pub use set::{Named, Said, Settings, loop_settings};
