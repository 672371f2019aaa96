//! Initialisers of objects, by what is declared where they stand. Each call that allocates answers `AllocError` for want
//! of memory alone; what it changes is then as it may be.
#![tactic(auto)]

mod forms;
mod initialisers;
mod lasting;

pub use initialisers::{global_inits, local_inits};
