//! What the constants and the string literals of a text stand for. Each call that allocates answers `AllocError` for
//! want of memory alone.
#![tactic(auto)]

mod numbers;
mod texts;

pub use texts::{Literal, Texts, texts_of};
