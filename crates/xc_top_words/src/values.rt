//! What the values of arguments spell.

ghost use Rattle.std.specs.Prelude.{◌≡◌, ◌≤◌, Some, None, MatchResult};
ghost use Rattle.clap.specs.Words.{found_of, rows_of};
ghost use Rattle.xc_top_words.specs.Words.{number_from, name_of, number_or as number_or_default, choice_in, is_given as is_flag_given, options_of, file_of, request_in, value_in};

use crate::command::{Choice, Name, Options};
use crate::line::value;
use crate::within::Within;
use crate::words::WordsFault;
use clap::ArgMatches;
use std::alloc::Global;
use xc_text_lines::number;

/// The number within its bounds that a value spells.
fn number_within<const LOW: u64, const HIGH: u64>(value: &str) -> Option<Within<LOW, HIGH>>
    ensures { result ≡ number_from LOW HIGH value.now }
{
    let n = number(value.as_bytes())?;
    if LOW <= n && n <= HIGH {
        Some(Within::new(n))
    } else {
        None
    }
}

/// The number of an option, or the default where the option is not given.
fn number_or<const LOW: u64, const HIGH: u64>(
    matches: &ArgMatches<'_>,
    option: &str,
    default: u64,
) -> Option<Within<LOW, HIGH>>
    requires low { LOW ≤ default }
    requires high { default ≤ HIGH }
    ensures { result ≡ number_or_default default (number_from LOW HIGH) (value_in option.now (rows_of (found_of matches.now))) }
{
    match value(matches, option) {
        Some(value) => number_within(value),
        None => Some(Within::new(default)),
    }
}

fn name(alloc: Global, value: &str) -> Result<Name, WordsFault>
    ensures { MatchResult result (λ n. name_of value.now ≡ Some n)
        (λ e. e ≡ WordsFault.Usage → name_of value.now ≡ None) }
{
    if value.is_empty() {
        return Err(WordsFault::Usage);
    }
    Ok(Name::new(alloc, value)?)
}

/// What chooses the streams.
fn choice(alloc: Global, matches: &ArgMatches<'_>) -> Result<Choice, WordsFault>
    ensures { MatchResult result (λ c. choice_in (rows_of (found_of matches.now)) ≡ Some c)
        (λ e. e ≡ WordsFault.Usage → choice_in (rows_of (found_of matches.now)) ≡ None) }
{
    match (value(matches, "seed"), value(matches, "schedule")) {
        (None, None) => Ok(Choice::Turns),
        (Some(seed), None) => match number(seed.as_bytes()) {
            Some(seed) => Ok(Choice::Seed(seed)),
            None => Err(WordsFault::Usage),
        },
        (None, Some(schedule)) => Ok(Choice::Schedule(name(alloc, schedule)?)),
        (Some(_), Some(_)) => Err(WordsFault::Usage),
    }
}

fn is_given(matches: &ArgMatches<'_>, flag: &str) -> bool
    ensures { result ≡ is_flag_given (value_in flag.now (rows_of (found_of matches.now))) }
{
    match value(matches, flag) {
        Some(value) => value == "true",
        None => false,
    }
}

fn options(alloc: Global, matches: &ArgMatches<'_>) -> Result<Options, WordsFault>
    ensures { MatchResult result (λ o. options_of (rows_of (found_of matches.now)) ≡ Some o)
        (λ e. e ≡ WordsFault.Usage → options_of (rows_of (found_of matches.now)) ≡ None) }
{
    let limits = number_or(matches, "steps", 10_000_000)
        .zip(number_or(matches, "words", 1 << 20))
        .zip(number_or(matches, "out", 1 << 20));
    let machine = number_or(matches, "processors", 1).zip(number_or(matches, "streams", 8));
    let Some(((processors, streams), ((steps, words), out))) = machine.zip(limits) else {
        return Err(WordsFault::Usage);
    };
    let choice = choice(alloc, matches)?;
    Ok(Options {
        processors,
        streams,
        choice,
        steps,
        words,
        out,
        recorded: is_given(matches, "record"),
    })
}

pub(crate) fn file(alloc: Global, matches: &ArgMatches<'_>) -> Result<Name, WordsFault>
    ensures { MatchResult result (λ n. file_of (rows_of (found_of matches.now)) ≡ Some n)
        (λ e. e ≡ WordsFault.Usage → file_of (rows_of (found_of matches.now)) ≡ None) }
{
    match value(matches, "file") {
        Some(value) => name(alloc, value),
        None => Err(WordsFault::Usage),
    }
}

pub(crate) fn options_and_file(
    alloc: Global,
    matches: &ArgMatches<'_>,
) -> Result<(Options, Name), WordsFault>
    ensures { MatchResult result (λ r. request_in (rows_of (found_of matches.now)) ≡ Some r)
        (λ e. e ≡ WordsFault.Usage → request_in (rows_of (found_of matches.now)) ≡ None) }
{
    let file = file(alloc, matches)?;
    let options = options(alloc, matches)?;
    Ok((options, file))
}
