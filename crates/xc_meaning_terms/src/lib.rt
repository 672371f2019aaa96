//! Programs as plain data: the abstract syntax that the meaning is defined by, what operators make of words and pointers, and the
//! values that an index takes.
#![tactic(auto)]

mod operation;
mod pointers;

pub use operation::{Operation, operate};
pub use pointers::{back, cells_between, element, forth, member, ordered};
