//! The top call with its contract once more: an edit of the call shows what the contract refuses.
#![tactic(auto)]

mod answers;
mod complete;

pub use answers::answer;
pub use complete::run_to_end;
