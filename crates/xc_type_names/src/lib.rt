//! Names: the number of each spelling, and what names stand for by scopes. Each call that allocates answers
//! `AllocError` for want of memory alone.
#![tactic(auto)]

mod numbers;
mod scopes;

pub use numbers::{Names, Reserved, reserved_of};
pub use scopes::Scopes;
