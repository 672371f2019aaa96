//! From typed programs to code.
#![tactic(auto)]

mod emit;
mod first;
mod frame;
mod program;

pub use first::unbuilt;
pub use program::code_of;
