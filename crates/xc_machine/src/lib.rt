//! The machine that runs code, with limits on live words, output and steps.
#![tactic(auto)]

mod machine;
mod run;
mod start;
mod stepped;
mod store;
mod target;
mod values;
mod views;

pub use machine::Machine;
pub use run::End;
pub use start::NewFault;
pub use stepped::Stepped;
