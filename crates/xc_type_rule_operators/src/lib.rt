//! The rules of operators: what an expression is found to be, by what is known of its operands (C99 6.5). Operands
//! are values where the rule does not say place. `span` covers the whole, with its operands.
#![tactic(auto)]

mod assigning;
mod branch;
mod double;
mod kinds;
mod logic;
mod rulings;
mod single;
mod verdict;

pub use assigning::{assign, step, update};
pub use branch::{comma, conditional};
pub use double::binary;
pub use logic::{Logic, logical};
pub use single::{cast, grouped, number, plus, unary};
