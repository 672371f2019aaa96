//! Code as a text of lines, its assembly: printed and read.
#![tactic(auto)]

mod draft;
mod follow;
mod instr;
mod keyword;
mod op;
mod operand;
mod text;
mod words;

pub use text::{AsmFault, print, read};
