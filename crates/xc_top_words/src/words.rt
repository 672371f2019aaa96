//! The words of the command line.

ghost use Rattle.std.specs.Prelude.{◌≡◌, Some, None, map, string_bytes, option_map, MatchResult};
ghost use Rattle.xc_top_words.specs.Words.{request_of, source_of, command_of};

use crate::command::{Command, Name, Options};
use crate::line::{compile_line, parse, run_line};
use crate::values::{file, options_and_file};
use clap::error::ErrorKind;
use std::alloc::{AllocError, Global};
use thiserror::Error;

/// Why no command was read.
#[derive(Clone, Copy, Debug, PartialEq, Eq, Error)]
pub enum WordsFault {
    /// The words are no command.
    #[error("the words are no command")]
    Usage,
    /// The host's memory is used up.
    #[error("no memory")]
    NoMemory,
}

impl From<AllocError> for WordsFault {
    ghost use Rattle.std.specs.Prelude.{◌≡◌};
    ghost use Rattle.xc_top_words.specs.declared.words.WordsFault.TheVariants.{NoMemory};

    ghost from_gives = { λ _ e. e ≡ NoMemory };

    fn from(_: AllocError) -> WordsFault {
        WordsFault::NoMemory
    }
}

impl From<clap::Error> for WordsFault {
    ghost use Rattle.std.specs.Prelude.{◌≡◌, ◌≢◌};
    ghost use Rattle.clap.specs.Words.{kind_of};
    ghost use Rattle.clap.specs.declared.error.kind.ErrorKind.TheVariants.{OutOfMemory};
    ghost use Rattle.xc_top_words.specs.declared.words.WordsFault.TheVariants.{Usage};

    ghost from_gives = { λ error e. e ≡ Usage → kind_of error ≢ OutOfMemory };

    fn from(error: clap::Error) -> WordsFault {
        match error.kind() {
            ErrorKind::OutOfMemory => WordsFault::NoMemory,
            _ => WordsFault::Usage,
        }
    }
}

/// The options and the file of a run.
fn request(alloc: Global, words: &[String]) -> Result<(Options, Name), WordsFault>
    ensures { MatchResult result (λ r. request_of (map string_bytes words.now) ≡ Some r)
        (λ e. e ≡ WordsFault.Usage → request_of (map string_bytes words.now) ≡ None) }
{
    let matches = parse(run_line(alloc)?, words)?;
    options_and_file(alloc, &matches)
}

fn run(alloc: Global, words: &[String]) -> Result<Command, WordsFault>
    ensures { MatchResult result (λ c. option_map (λ r. Command.Run r.0 r.1) (request_of (map string_bytes words.now)) ≡ Some c)
        (λ e. e ≡ WordsFault.Usage → option_map (λ r. Command.Run r.0 r.1) (request_of (map string_bytes words.now)) ≡ None) }
{
    let (options, file) = request(alloc, words)?;
    Ok(Command::Run { options, file })
}

fn exec(alloc: Global, words: &[String]) -> Result<Command, WordsFault>
    ensures { MatchResult result (λ c. option_map (λ r. Command.Exec r.0 r.1) (request_of (map string_bytes words.now)) ≡ Some c)
        (λ e. e ≡ WordsFault.Usage → option_map (λ r. Command.Exec r.0 r.1) (request_of (map string_bytes words.now)) ≡ None) }
{
    let (options, file) = request(alloc, words)?;
    Ok(Command::Exec { options, file })
}

/// The file that is compiled.
fn source(alloc: Global, words: &[String]) -> Result<Name, WordsFault>
    ensures { MatchResult result (λ n. source_of (map string_bytes words.now) ≡ Some n)
        (λ e. e ≡ WordsFault.Usage → source_of (map string_bytes words.now) ≡ None) }
{
    let matches = parse(compile_line(alloc)?, words)?;
    file(alloc, &matches)
}

fn compile(alloc: Global, words: &[String]) -> Result<Command, WordsFault>
    ensures { MatchResult result (λ c. option_map (λ f. Command.Compile f) (source_of (map string_bytes words.now)) ≡ Some c)
        (λ e. e ≡ WordsFault.Usage → option_map (λ f. Command.Compile f) (source_of (map string_bytes words.now)) ≡ None) }
{
    let file = source(alloc, words)?;
    Ok(Command::Compile { file })
}

/// The command that the words after the program's name say.
pub fn read_command(alloc: Global, words: &[String]) -> Result<Command, WordsFault>
    ensures { MatchResult result (λ c. command_of (map string_bytes words.now) ≡ Some c)
        (λ e. e ≡ WordsFault.Usage → command_of (map string_bytes words.now) ≡ None) }
{
    let [command, rest @ ..] = words else {
        return Err(WordsFault::Usage);
    };
    match command.as_str() {
        "run" => run(alloc, rest),
        "exec" => exec(alloc, rest),
        "compile" => compile(alloc, rest),
        _ => Err(WordsFault::Usage),
    }
}
