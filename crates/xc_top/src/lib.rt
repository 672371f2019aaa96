//! The top call: from the words of the command line to a status, over any shelf and any two sinks.
#![tactic(auto)]

mod fetch;
mod judge;
mod lines;
mod status;
mod top;

pub use status::{Bad, FileKind, Numbers, Shown, Status, TrapShown};
pub use top::xmtc;
pub use xc_top_words::Name;
