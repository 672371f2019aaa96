//! Names and places: what an expression that leads to an object is found to be, by what is known of its parts
//! (C99 6.5.1 to 6.5.3). `span` covers the whole, with its parts, and `sizes` has the sizes of the structs.
#![tactic(auto)]

mod addresses;
mod element;
mod member;
mod names;

pub use addresses::address;
pub use element::{index, star};
pub use member::{arrow, arrow_owner, dot, dot_owner};
pub use names::name;
