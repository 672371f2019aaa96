//! File scope: the objects and the functions of a text, by what its declarations, expressions and statements are judged to
//! be (C99 6.9). Each call that allocates answers `AllocError` for want of memory alone; what it changes is then as it
//! may be.
#![tactic(auto)]

mod functions;
mod globals;
mod heads;
mod parameters;
mod scope;
mod text;
mod types;

pub use heads::{Head, main_of};
pub use scope::FileScope;
pub use text::{Whole, outer};
pub use types::copy_known;
