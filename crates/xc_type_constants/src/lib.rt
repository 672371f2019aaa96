//! Integer constant expressions (C99 6.6, without `sizeof`), by the text alone. Each call that allocates answers
//! `AllocError` for want of memory alone; what it changes is then as it may be.
#![tactic(auto)]

mod part;
mod piece;

pub use part::Part;
pub use piece::constant;
