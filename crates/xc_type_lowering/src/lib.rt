//! Locals whose address is never taken: each is a value of its thread, and no object.
#![tactic(auto)]

mod expr;
mod lower;
mod stmt;

pub use lower::{lower_expr, lower_stmt};
