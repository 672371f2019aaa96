//! The text of code.

ghost use Rattle.std.specs.Prelude.{◌≡◌, ◌++◌, ◌∷◌, [], OnOk, IfOk, MatchResult, All, map, List, ℕ, ◌<◌, ◌^◌};
ghost use Rattle.std.specs.List.{flat_map, AllByRecursion};
ghost use Rattle.hex.specs.Hex.{IsBytes};
ghost use Rattle.xc_text_lines.specs.Lines.{HasFewLines};
ghost use Rattle.xc_text_lines.specs.Grammar.{IsFirstBad, with_feeds};
ghost use Rattle.xc_isa.specs.Texts.{HasText, size_of};
ghost use Rattle.xc_isa_text.specs.Faults.{fault_of};
ghost use Rattle.xc_isa_text.specs.Instructions.{instr_line, IsInstr};
ghost use Rattle.xc_isa_text.specs.InnerReadings.{contents_in};
ghost use Rattle.xc_isa_text.specs.Texts.{Contents, contents_of, global_lines, run_line, format_line, mark_line, IsRun, IsMark, Spells, IsAssembly};

use crate::draft::Draft;
use crate::instr::push_instr;
use crate::operand::Full;
use crate::words::{put_five, put_one, put_three};
use sqlite_items::Items;
use std::alloc::{AllocError, Global};
use thiserror::Error;
use xc_isa::{Code, Instr, LoopMark, Run};
use xc_text_lines::{ReadFault, end_line, push_hex, read_lines};

/// Why a text was not read.
#[derive(Clone, Copy, Debug, Error)]
pub enum AsmFault {
    /// The first bad line, counted from 1.
    #[error("line {0} is bad")]
    Line(u32),
    #[error("no memory")]
    NoMemory,
}

/// Reads code.
pub fn read(alloc: Global, text: &[u8]) -> Result<Code, AsmFault>
    requires { HasFewLines text.now }
    // The text spells what is read.
    ensures found { IfOk result (λ code. Spells text.now (contents_of code)) }
    // What the text spells is read, unless memory runs out.
    ensures only { (c : Contents) → Spells text.now c
        → MatchResult result (λ code. contents_of code ≡ c) (λ fault. fault ≡ AsmFault.NoMemory) }
    // Another text has a first bad line.
    ensures line { (k : ℕ) → result ≡ Err (AsmFault.Line k) → IsFirstBad IsAssembly text.now k }
{
    let mut draft = Draft::new(alloc);
    match read_lines(text, &mut draft) {
        Ok(()) => Ok(draft.finished()),
        Err(fault) => Err(why(fault)),
    }
}

fn why(fault: ReadFault) -> AsmFault
    ensures { result ≡ fault_of fault }
{
    match fault {
        ReadFault::Line(line) => AsmFault::Line(line),
        ReadFault::NoMemory => AsmFault::NoMemory,
    }
}

/// The text of code.
pub fn print(alloc: Global, code: &Code) -> Result<Vec<u8>, AllocError>
    // The text spells the code.
    ensures spells { IfOk result (λ text. Spells text.items (contents_of code.now)) }
    // It is the only text that does.
    ensures again { (text : List ℕ) → Spells text (contents_of code.now)
        → IfOk result (λ printed. printed.items ≡ text) }
    // It has few enough lines to be read again.
    ensures few { IfOk result (λ text. HasFewLines text.items) }
{
    let mut out = Vec::from_slice(alloc, b"xmtasm 1\n")?;
    push_globals(&mut out, code.globals.as_slice())?;
    push_formats(alloc, &mut out, code.formats.as_slice())?;
    push_marks(&mut out, code.loops.as_slice())?;
    out.extend_from_slice(b"code\n")?;
    push_instrs(&mut out, code.instrs.as_slice())?;
    Ok(out)
}

/// Writes the line of a run.
fn push_run(out: &mut Vec<u8>, run: Run) -> Result<(), AllocError>
    ensures ok { OnOk result (out.new.items ≡ out.old.items ++ (run_line run ++ 10 ∷ [])) }
    ensures fits { OnOk result (IsRun run) }
{
    out.extend_from_slice(b"cells")?;
    put_three(out, run.count, run.cell.value, Full(run.cell.full))
}

/// Writes the lines of some runs.
fn push_runs(out: &mut Vec<u8>, runs: &[Run]) -> Result<(), AllocError>
    ensures ok { OnOk result (out.new.items ≡ out.old.items ++ with_feeds (map run_line runs.now)) }
    ensures fit { OnOk result (AllByRecursion IsRun runs.now) }
{
    for run in runs {
        push_run(out, *run)?;
    }
    Ok(())
}

/// How many cells the runs have.
fn size(runs: &[Run]) -> u32
    requires { size_of runs.now < 2 ^ 32 }
    ensures { result ≡ size_of runs.now }
{
    let mut size = 0;
    for run in runs {
        size += run.count;
    }
    size
}

/// Writes the lines of a global.
fn push_global(out: &mut Vec<u8>, runs: &[Run]) -> Result<(), AllocError>
    requires { size_of runs.now < 2 ^ 32 }
    ensures ok { OnOk result (out.new.items ≡ out.old.items ++ with_feeds (global_lines runs.now)) }
    ensures fit { OnOk result (AllByRecursion IsRun runs.now) }
{
    out.extend_from_slice(b"global")?;
    put_one(out, size(runs))?;
    push_runs(out, runs)
}

/// Writes the lines of the globals.
fn push_globals(out: &mut Vec<u8>, globals: &[Items<Run>]) -> Result<(), AllocError>
    requires { All (λ runs. size_of runs < 2 ^ 32) globals.now }
    ensures ok { OnOk result (out.new.items
        ≡ out.old.items ++ with_feeds (flat_map global_lines globals.now)) }
    ensures fit { OnOk result (AllByRecursion (AllByRecursion IsRun) globals.now) }
{
    for runs in globals {
        push_global(out, runs.as_slice())?;
    }
    Ok(())
}

/// Writes the line of a mark.
fn push_mark(out: &mut Vec<u8>, mark: LoopMark) -> Result<(), AllocError>
    ensures ok { OnOk result (out.new.items ≡ out.old.items ++ (mark_line mark ++ 10 ∷ [])) }
    ensures fits { OnOk result (IsMark mark) }
{
    out.extend_from_slice(b"loop")?;
    put_five(
        out,
        mark.id,
        mark.start,
        mark.worker,
        mark.serial,
        mark.after,
    )
}

/// Writes the lines of the marks.
fn push_marks(out: &mut Vec<u8>, marks: &[LoopMark]) -> Result<(), AllocError>
    ensures ok { OnOk result (out.new.items ≡ out.old.items ++ with_feeds (map mark_line marks.now)) }
    ensures fit { OnOk result (AllByRecursion IsMark marks.now) }
{
    for mark in marks {
        push_mark(out, *mark)?;
    }
    Ok(())
}

/// Writes the line of a format.
fn push_format(alloc: Global, out: &mut Vec<u8>, bytes: &[u8]) -> Result<(), AllocError>
    ensures ok { OnOk result (out.new.items ≡ out.old.items ++ (format_line bytes.now ++ 10 ∷ [])) }
    ensures fits { OnOk result (IsBytes bytes.now) }
{
    out.extend_from_slice(b"format ")?;
    push_hex(alloc, out, bytes)?;
    end_line(out)
}

/// Writes the lines of the formats.
fn push_formats(alloc: Global, out: &mut Vec<u8>, formats: &[Items<u8>]) -> Result<(), AllocError>
    ensures ok { OnOk result (out.new.items ≡ out.old.items ++ with_feeds (map format_line formats.now)) }
    ensures fit { OnOk result (AllByRecursion IsBytes formats.now) }
{
    for bytes in formats {
        push_format(alloc, out, bytes.as_slice())?;
    }
    Ok(())
}

/// Writes the lines of the instructions.
fn push_instrs(out: &mut Vec<u8>, instrs: &[Instr]) -> Result<(), AllocError>
    ensures ok { OnOk result (out.new.items ≡ out.old.items ++ with_feeds (map instr_line instrs.now)) }
    ensures fit { OnOk result (AllByRecursion IsInstr instrs.now) }
{
    for instr in instrs {
        push_instr(out, instr)?;
    }
    Ok(())
}
