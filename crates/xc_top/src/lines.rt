//! The lines on err.

ghost use Rattle.std.specs.Prelude.{◌≡◌, ◌++◌, Some, string_bytes, IfOk, OnOk, codes, decimal};
ghost use Rattle.xc_top.specs.Lines.{kind_text as kind_text_of, trap_text as trap_text_of, number_text, processors_text as processors_text_of, numbers_text, place_text, shown_line_of, trap_line_of, unfinished_line_of, bad_line_of, line_of};

use crate::status::{Bad, FileKind, Numbers, Shown, Status, TrapShown};
use itoa::Buffer;
use std::alloc::{AllocError, Global};
use xc_isa::TrapKind;

/// The line that takes no memory.
pub(crate) const NO_MEMORY: &str = "xmtc: no memory\n";

/// The line of a status, with its line feed; a text that was written has none, nor has a failed write.
pub(crate) fn line(alloc: Global, status: &Status) -> Result<Vec<u8>, AllocError>
    ensures { IfOk result (λ l. l.items ≡ line_of status.now) }
{
    let mut line = String::new(alloc);
    push_line(&mut line, status)?;
    Ok(line.into_bytes())
}

fn push_line(line: &mut String, status: &Status) -> Result<(), AllocError>
    ensures { OnOk result (string_bytes line.new ≡ string_bytes line.old ++ line_of status.now) }
{
    match status {
        Status::Ok(shown) => push_shown(line, shown),
        Status::ReadFault(name) => push_about(line, "xmtc: cannot read ", name.as_str(), "\n"),
        Status::WriteFault => Ok(()),
        Status::Usage => push_text(line, "usage: xmtc COMMAND [OPTIONS] FILE\n"),
        Status::Long(name) => push_about(line, "xmtc: ", name.as_str(), ": too long\n"),
        Status::Refused { name, kind, at } => {
            push_place(line, name.as_str(), at.line, at.col, kind_text(*kind))
        }
        Status::Trap(shown) => push_trap(line, shown),
        Status::Unfinished(numbers) => push_unfinished(line, numbers),
        Status::Stuck(numbers) => push_end(line, "stuck", *numbers),
        Status::BadSchedule(bad) => push_bad(line, bad),
        Status::WordsFull {
            live,
            asked,
            numbers,
        } => push_full(line, ("words live=", *live), (" asked=", *asked), *numbers),
        Status::OutFull {
            length,
            piece,
            numbers,
        } => push_full(
            line,
            ("output length=", *length),
            (" piece=", *piece),
            *numbers,
        ),
        Status::NoMemory => push_text(line, NO_MEMORY),
    }
}

fn push_text(line: &mut String, text: &str) -> Result<(), AllocError>
    ensures { OnOk result (string_bytes line.new ≡ string_bytes line.old ++ text.now) }
{
    line.push_str(text)
}

/// Writes a number behind its name.
fn push_number(line: &mut String, name: &str, number: u64) -> Result<(), AllocError>
    ensures { OnOk result (string_bytes line.new ≡ string_bytes line.old ++ number_text name.now number) }
{
    line.push_str(name)?;
    line.push_str(Buffer::new().format(number))
}

/// Writes the end of a line about a run.
fn push_numbers(line: &mut String, numbers: Numbers) -> Result<(), AllocError>
    ensures { OnOk result (string_bytes line.new ≡ string_bytes line.old ++ numbers_text numbers) }
{
    push_number(line, " steps=", numbers.steps)?;
    push_number(line, " streams=", u64::from(numbers.streams))?;
    push_processors(line, numbers.processors)?;
    line.push_str("\n")
}

/// Writes how many processors there are, where it is not one.
fn push_processors(line: &mut String, processors: u32) -> Result<(), AllocError>
    ensures { OnOk result (string_bytes line.new ≡ string_bytes line.old ++ processors_text_of processors) }
{
    if processors == 1 {
        return Ok(());
    }
    push_number(line, " processors=", u64::from(processors))
}

/// Writes how a run ended.
fn push_end(line: &mut String, how: &str, numbers: Numbers) -> Result<(), AllocError>
    ensures { OnOk result (string_bytes line.new ≡ string_bytes line.old ++ (how.now ++ numbers_text numbers)) }
{
    line.push_str(how)?;
    push_numbers(line, numbers)
}

/// Writes that the work is done.
fn push_shown(line: &mut String, shown: &Shown) -> Result<(), AllocError>
    ensures { OnOk result (string_bytes line.new ≡ string_bytes line.old ++ shown_line_of shown.now) }
{
    match shown {
        Shown::Ran(numbers) => push_end(line, "ended", *numbers),
        Shown::Nothing => Ok(()),
    }
}

fn push_unfinished(line: &mut String, numbers: &Option<Numbers>) -> Result<(), AllocError>
    ensures { OnOk result (string_bytes line.new ≡ string_bytes line.old ++ unfinished_line_of numbers.now) }
{
    match numbers {
        None => line.push_str("unfinished\n"),
        Some(numbers) => push_end(line, "unfinished", *numbers),
    }
}

fn push_trap(line: &mut String, shown: &Option<TrapShown>) -> Result<(), AllocError>
    ensures { OnOk result (string_bytes line.new ≡ string_bytes line.old ++ trap_line_of shown.now) }
{
    match shown {
        None => line.push_str("trap\n"),
        Some(shown) => push_trapped(line, shown),
    }
}

fn push_trapped(line: &mut String, shown: &TrapShown) -> Result<(), AllocError>
    ensures { OnOk result (string_bytes line.new ≡ string_bytes line.old ++ trap_line_of (Some shown.now)) }
{
    line.push_str("trap ")?;
    line.push_str(trap_text(shown.kind))?;
    push_number(line, " stream=", u64::from(shown.stream))?;
    push_numbers(line, shown.numbers)
}

fn push_bad(line: &mut String, bad: &Bad) -> Result<(), AllocError>
    ensures { OnOk result (string_bytes line.new ≡ string_bytes line.old ++ bad_line_of bad.now) }
{
    match bad {
        Bad::Line { name, line: at } => push_place(line, name.as_str(), *at, 1, "schedule"),
        Bad::Entry { step, numbers } => push_count(line, "badchoice step=", *step, *numbers),
    }
}

/// Writes a number behind its name, and the end of a line about a run.
fn push_count(
    line: &mut String,
    name: &str,
    number: u64,
    numbers: Numbers,
) -> Result<(), AllocError>
    ensures { OnOk result (string_bytes line.new ≡ string_bytes line.old ++ (number_text name.now number ++ numbers_text numbers)) }
{
    push_number(line, name, number)?;
    push_numbers(line, numbers)
}

/// Writes what is there and what is asked for besides, each behind its name.
fn push_full(
    line: &mut String,
    there: (&str, u64),
    asked: (&str, u64),
    numbers: Numbers,
) -> Result<(), AllocError>
    ensures { OnOk result (string_bytes line.new ≡ string_bytes line.old ++ (number_text there.entry.0.now there.entry.1 ++ number_text asked.entry.0.now asked.entry.1 ++ numbers_text numbers)) }
{
    push_number(line, there.0, there.1)?;
    push_count(line, asked.0, asked.1, numbers)
}

/// Writes a line about a file.
fn push_about(line: &mut String, before: &str, name: &str, after: &str) -> Result<(), AllocError>
    ensures { OnOk result (string_bytes line.new ≡ string_bytes line.old ++ (before.now ++ name.now ++ after.now)) }
{
    line.push_str(before)?;
    line.push_str(name)?;
    line.push_str(after)
}

/// Writes a line about a place in a file.
fn push_place(
    line: &mut String,
    name: &str,
    at: u32,
    column: u32,
    what: &str,
) -> Result<(), AllocError>
    ensures { OnOk result (string_bytes line.new ≡ string_bytes line.old ++ place_text name.now at column what.now) }
{
    push_about(line, "xmtc: ", name, "")?;
    push_number(line, ":", u64::from(at))?;
    push_number(line, ":", u64::from(column))?;
    push_about(line, ": ", what, "\n")
}

fn kind_text(kind: FileKind) -> &'static str
    ensures { result.now ≡ kind_text_of kind }
{
    match kind {
        FileKind::Lex => "lex",
        FileKind::Syntax => "syntax",
        FileKind::Depth => "depth",
        FileKind::Name => "name",
        FileKind::Typing => "type",
        FileKind::Count => "count",
        FileKind::Asm => "asm",
        FileKind::Unbuilt => "unbuilt",
    }
}

fn trap_text(kind: TrapKind) -> &'static str
    ensures { result.now ≡ trap_text_of kind }
{
    match kind {
        TrapKind::Divide => "divide",
        TrapKind::Index => "index",
        TrapKind::Range => "range",
        TrapKind::Objects => "objects",
        TrapKind::Place => "place",
        TrapKind::Size => "size",
        TrapKind::Format => "format",
        TrapKind::Code => "code",
        TrapKind::Jump => "jump",
    }
}
