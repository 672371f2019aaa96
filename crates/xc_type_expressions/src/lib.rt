//! What the expressions and the types of a text are found to be, by what is declared where they stand. Each call that
//! allocates answers `AllocError` for want of memory alone; what it changes is then as it may be.
#![tactic(auto)]

mod calls;
mod judge;
mod operations;
mod parts;
mod places;
mod structs;
mod text;
mod types;

pub use judge::{bounds_found, declared, found, specified, value};
pub use places::{arrowed, dotted, named};
pub use structs::note_name_unless;
pub use text::Text;
pub use types::{Declared, Tagged};
