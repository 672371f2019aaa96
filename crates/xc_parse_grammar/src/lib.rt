//! The grammar of the language, and what its parser does next.
#![tactic(auto)]

mod goals;
mod marks;
mod spots;

pub use goals::{Goal, Move, Shape, Use, plan};
pub use marks::{Class, Item, Kind, Strength};
pub use spots::{Spot, start};
