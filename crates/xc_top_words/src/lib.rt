//! The words of the command line, read to a command.
#![tactic(auto)]

mod command;
mod line;
mod values;
mod within;
mod words;

pub use command::{Choice, Command, Name, Options};
pub use within::{OutLimit, Processors, Steps, Streams, Within, WordLimit};
pub use words::{WordsFault, read_command};
