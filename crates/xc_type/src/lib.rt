//! The type checker: from the untyped tree of a text to its typed tree, or to its first fault.
#![tactic(auto)]

mod checker;
mod fault;
mod made;

pub use checker::check;
pub use fault::CheckFault;
