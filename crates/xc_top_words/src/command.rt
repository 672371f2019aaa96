//! Commands, with their options.

ghost use Rattle.std.specs.Prelude.{◌≡◌, string_bytes, IfOk};
ghost use Rattle.std.specs.Option.{option_map};
ghost use Rattle.xc_top_words.specs.Commands.{file_in, options_in, schedule_in, schedule_of};

use crate::within::{OutLimit, Processors, Steps, Streams, WordLimit};
use std::alloc::{AllocError, Global};
use std::marker::Model;

/// The name of a file. Contracts see its bytes.
#[derive(Drop)]
pub struct Name {
    text: String,
}

impl Model for Name {
    ghost use Rattle.std.specs.Prelude.{List, ℕ, string_bytes};

    ghost Value = { List ℕ };

    ghost view = { λ n. string_bytes n.text };
}

impl Name {
    pub fn new(alloc: Global, text: &str) -> Result<Name, AllocError>
        ensures { IfOk result (λ n. n ≡ text.now) }
    {
        let text = String::from_str(alloc, text)?;
        Ok(Name { text })
    }

    pub fn as_str(&self) -> &str
        ensures { result.now ≡ self.now }
    {
        self.text.as_str()
    }
}

/// What chooses the stream that steps next.
#[derive(Drop)]
pub enum Choice {
    /// Round robin.
    Turns,
    /// A generator with this seed.
    Seed(u64),
    /// The schedule in a file.
    Schedule(Name),
}

/// How code is run.
#[derive(Drop)]
pub struct Options {
    /// The number of processors.
    pub processors: Processors,
    /// The number of streams on each processor.
    pub streams: Streams,
    pub choice: Choice,
    /// The most steps.
    pub steps: Steps,
    /// The most live words, those of the globals included.
    pub words: WordLimit,
    /// The most bytes of output.
    pub out: OutLimit,
    /// Whether the choices are written to err.
    pub recorded: bool,
}

/// What the words say.
#[derive(Drop)]
pub enum Command {
    /// Compiles and runs the program in a file.
    Run { options: Options, file: Name },
    /// Runs the assembly in a file.
    Exec { options: Options, file: Name },
    /// Writes the assembly of the program in a file.
    Compile { file: Name },
}

impl Choice {
    /// The file of the schedule, where one is named.
    pub fn schedule(&self) -> Option<&Name>
        ensures { option_map (λ n. n.now) result ≡ schedule_in self.now }
    {
        match self {
            Choice::Schedule(file) => Some(file),
            Choice::Turns | Choice::Seed(_) => None,
        }
    }
}

impl Command {
    /// The file that is run or compiled.
    pub fn file(&self) -> &Name
        ensures { result.now ≡ file_in self.now }
    {
        match self {
            Command::Run { file, .. } | Command::Exec { file, .. } | Command::Compile { file } => {
                file
            }
        }
    }

    /// How it is run, where it is.
    pub fn options(&self) -> Option<&Options>
        ensures { option_map (λ o. o.now) result ≡ options_in self.now }
    {
        match self {
            Command::Run { options, .. } | Command::Exec { options, .. } => Some(options),
            Command::Compile { .. } => None,
        }
    }

    /// The file of the schedule, where one is named.
    pub fn schedule(&self) -> Option<&Name>
        ensures { option_map (λ n. n.now) result ≡ schedule_of self.now }
    {
        match self {
            Command::Run { options, .. } | Command::Exec { options, .. } => {
                options.choice.schedule()
            }
            Command::Compile { .. } => None,
        }
    }
}
