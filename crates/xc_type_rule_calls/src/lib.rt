//! Calls: what a call of a function, of a generic function and of `printf` is found to be, by what is known of its
//! arguments (C99 6.5.2.2). Arguments are values. `span` covers the whole call.
#![tactic(auto)]

mod arguments;
mod calls;
mod generic;
mod print;

pub use calls::{call, misused};
pub use generic::{access, update};
pub use print::{Text, integers_taken, ninth, printed};
