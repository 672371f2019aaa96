//! The values of operators on 64-bit words, and of constants.
#![tactic(auto)]

mod constants;
mod operators;

pub use constants::{constant, is_int};
pub use operators::{binary, is_uint, unary, works_on_uint};
