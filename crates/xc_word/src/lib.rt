//! A memory of tagged words: each cell holds a 64-bit value and a state, full or empty, and an access may wait for a
//! state and leave another. After R. Alverson, D. Callahan, D. Cummings, B. Koblenz, A. Porterfield and B. Smith,
//! The Tera Computer System, International Conference on Supercomputing, 1990.
#![tactic(auto)]

mod memory;

pub use memory::{Access, AddFault, Applied, Cell, Dead, Kind, Memory, Place, Word};
