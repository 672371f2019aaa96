//! Threads of code that keep a protocol, with what their steps weigh between two actions; the steps of one stream alone; and what
//! shared cells hold after any interleaving that keeps an invariant.
#![tactic(auto)]

mod theorem;

pub use theorem::{
    Invariant, Protocol, invariant_holds, protocol_is_kept, steps_are_counted, streams_alone,
};
