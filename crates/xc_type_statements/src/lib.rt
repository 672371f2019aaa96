//! Statements, by what is declared where they stand (C99 6.8). Each call that allocates answers `AllocError` for want of memory
//! alone; what it changes is then as it may be.
#![tactic(auto)]

mod forms;

pub use forms::{body, stated};
