//! Initialisers, by expressions that are judged: what they go to and what they give, and for globals their words and the
//! first cells of the object. Each call that allocates answers `AllocError` for want of memory alone; what it changes is
//! then as it may be.
#![tactic(auto)]

mod cells;
mod inits;
mod starts;
mod target;
mod word;

pub use cells::initialised;
pub use inits::{Inits, note_type_unless, value_made};
pub use starts::{MOST_LEVELS, started};
pub use target::{Part, Target, may_be_braced, part_of};
pub use word::{global_words, number_made, word_of};
