//! Schedules: which streams are ready, and the choosers that name the stream that steps next.
#![tactic(auto)]

mod chooser;
mod draft;
mod form;
mod ready;
mod recorded;
mod recorder;
mod run;
mod text;

pub use chooser::{Chooser, RoundRobin, Seeded, next_seed};
pub use ready::Ready;
pub use recorded::Recorded;
pub use recorder::{Loss, Recorder};
pub use text::{SchedFault, print_schedule, read_schedule};
