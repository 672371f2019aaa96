//! The untyped tree of the tokens of a text, or where they stop to have one.
#![tactic(auto)]

mod nodes;
mod parser;

pub use parser::{ParseFault, parse};
