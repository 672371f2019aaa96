//! The compiler: from the bytes of a source to code, or to the reason why there is none.
#![tactic(auto)]

mod compiler;
mod fault;

pub use compiler::{Compiled, compile};
pub use fault::{CompileFault, Refusal, RefusalKind};
