//! The structs of a text: how many cells each has, of which kinds, and its members. A struct has a number from its
//! opening brace on, and no cells until its closing brace. Each call that allocates answers `AllocError` for want of
//! memory alone; what it changes is then as it may be.
#![tactic(auto)]

mod kinds;
mod members;
mod structs;

pub use kinds::Kinds;
pub use members::Members;
pub use structs::{Layout, Structs};
