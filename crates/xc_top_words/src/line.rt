//! The arguments of each command, and the words read by them.

ghost use Rattle.std.specs.Prelude.{◌≡◌, Some, None, [], true, false, map, string_bytes, option_map, IfOk, MatchResult};
ghost use Rattle.clap.specs.Words.{app_of, found_of, is_simple, is_simple_and_free, rows_of, rule_of};
ghost use Rattle.xc_top_words.specs.Words.{option as option_rule, flag as flag_rule, file as file_rule, line_of, option_names, run_line as run_line_app, compile_line as compile_line_app, rows_of_words, value_in};

use crate::words::WordsFault;
use clap::{Arg, ArgAction, ArgMatches, Command};
use std::alloc::{AllocError, Global};

/// `--name VALUE` or `--name=VALUE`.
fn option<'a>(alloc: Global, name: &'a str) -> Arg<'a>
    ensures rule { rule_of result ≡ option_rule name.now }
    ensures local { result.global ≡ false }
{
    Arg::new(alloc, name).long(name)
}

/// `--name`.
fn flag<'a>(alloc: Global, name: &'a str) -> Arg<'a>
    ensures rule { rule_of result ≡ flag_rule name.now }
    ensures local { result.global ≡ false }
{
    Arg::new(alloc, name).long(name).action(ArgAction::SetTrue)
}

/// The word that has to be there.
fn file<'a>(alloc: Global) -> Arg<'a>
    ensures rule { rule_of result ≡ file_rule }
    ensures local { result.global ≡ false }
{
    Arg::new(alloc, "file").required(true)
}

/// A command without arguments, of which every word is an argument.
fn bare_line<'a>(alloc: Global) -> Command<'a>
    ensures { app_of result ≡ line_of [] }
{
    Command::new(alloc, "xmtc")
        .no_binary_name(true)
        .disable_help_flag(true)
}

/// The options of a run that have a value.
fn options_line<'a>(alloc: Global) -> Result<Command<'a>, AllocError>
    ensures { IfOk result (λ line. app_of line ≡ line_of (map option_rule option_names)) }
{
    let mut line = bare_line(alloc);
    for name in [
        "processors",
        "streams",
        "seed",
        "schedule",
        "steps",
        "words",
        "out",
    ] {
        line = line.arg(option(alloc, name))?;
    }
    Ok(line)
}

/// What stands behind `run` and `exec`.
pub(crate) fn run_line<'a>(alloc: Global) -> Result<Command<'a>, AllocError>
    ensures { IfOk result (λ line. app_of line ≡ run_line_app) }
{
    options_line(alloc)?
        .arg(flag(alloc, "record"))?
        .arg(file(alloc))
}

/// What stands behind `compile`.
pub(crate) fn compile_line<'a>(alloc: Global) -> Result<Command<'a>, AllocError>
    ensures { IfOk result (λ line. app_of line ≡ compile_line_app) }
{
    bare_line(alloc).arg(file(alloc))
}

/// What the words give the arguments of a line.
pub(crate) fn parse<'a>(
    line: Command<'a>,
    words: &'a [String],
) -> Result<ArgMatches<'a>, WordsFault>
    requires simple { is_simple (app_of line) ≡ true }
    requires free { is_simple_and_free (app_of line) ≡ true }
    ensures { MatchResult result (λ m. rows_of_words (app_of line.entry) (map string_bytes words.now) ≡ Some (rows_of (found_of m)))
        (λ e. e ≡ WordsFault.Usage → rows_of_words (app_of line.entry) (map string_bytes words.now) ≡ None) }
{
    Ok(line.try_get_matches_from(words)?)
}

/// The value that is given for a name.
pub(crate) fn value<'a>(matches: &ArgMatches<'a>, name: &str) -> Option<&'a str>
    ensures { option_map (λ v. v.now) result ≡ value_in name.now (rows_of (found_of matches.now)) }
{
    matches.get_str(name)
}
