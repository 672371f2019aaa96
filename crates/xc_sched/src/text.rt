//! The text of a schedule.

ghost use Rattle.std.specs.Prelude.{◌≡◌, ◌⊎◌, ◌++◌, ◌∷◌, [], ◌<◌, ◌-◌, ◌^◌, length, OnOk, IfOk, List, ℕ};
ghost use Rattle.xc_text_lines.specs.Lines.{HasFewLines};
ghost use Rattle.xc_text_lines.specs.Grammar.{IsFirstBad};
ghost use Rattle.xc_sched.specs.Faults.{fault_of};
ghost use Rattle.xc_sched.specs.Runs.{Fits, steps_of, line_of, text_of, Spells, IsRead, IsSchedule};
ghost use Rattle.xc_sched.specs.declared.form.Form.TheVariants.{Slots};

use crate::draft::Draft;
use crate::recorded::Recorded;
use crate::run::{Run, SLOTS, rest};
use std::alloc::{AllocError, Global};
use thiserror::Error;
use xc_text_lines::{ReadFault, end_line, push_number, push_space, read_lines};

/// Why a schedule was not read.
#[derive(Clone, Copy, Debug, PartialEq, Eq, Error)]
pub enum SchedFault {
    /// The first bad line, counted from 1.
    #[error("line {0} is bad")]
    Line(u32),
    #[error("no memory")]
    NoMemory,
}

/// Reads a schedule, of either form.
pub fn read_schedule(alloc: Global, text: &[u8]) -> Result<Recorded, SchedFault>
    requires { HasFewLines text.now }
    // The text spells what is read.
    ensures found { IfOk result (λ s. IsRead text.now s) }
    // What the text spells is read, unless memory runs out.
    ensures only { (s : List ℕ) → IsRead text.now s → (result ≡ Ok s) ⊎ (result ≡ Err SchedFault.NoMemory) }
    // Another text has a first bad line.
    ensures line { (k : ℕ) → result ≡ Err (SchedFault.Line k) → IsFirstBad IsSchedule text.now k }
{
    let mut draft = Draft {
        form: None,
        runs: Vec::new(alloc),
    };
    match read_lines(text, &mut draft) {
        Ok(()) => Ok(finished(draft)),
        Err(fault) => Err(why(fault)),
    }
}

fn why(fault: ReadFault) -> SchedFault
    ensures { result ≡ fault_of fault }
{
    match fault {
        ReadFault::Line(line) => SchedFault::Line(line),
        ReadFault::NoMemory => SchedFault::NoMemory,
    }
}

fn finished(draft: Draft) -> Recorded
    requires few { length draft.1 < 2 ^ 32 - 2 }
    requires fit { Fits draft.1 }
    ensures { result ≡ steps_of draft.1 }
{
    Recorded {
        runs: draft.runs,
        at: 0,
    }
}

/// The text of what is left of a schedule, in the second form.
pub fn print_schedule(alloc: Global, s: &Recorded) -> Result<Vec<u8>, AllocError>
    // The text spells what is left.
    ensures spells { IfOk result (λ v. Spells v.items s.now) }
    // It is the only text of this form that does.
    ensures again { (text : List ℕ) → Spells text s.now → IfOk result (λ v. v.items ≡ text) }
    // It has few enough lines to be read again.
    ensures few { IfOk result (λ v. HasFewLines v.items) }
{
    print_runs(alloc, rest(&s.runs, s.at))
}

fn print_runs(alloc: Global, runs: &[Run]) -> Result<Vec<u8>, AllocError>
    ensures { IfOk result (λ v. v.items ≡ text_of Slots runs.now) }
{
    let mut out = Vec::from_slice(alloc, b"schedule 2\n")?;
    for run in runs {
        push_run(&mut out, *run)?;
    }
    Ok(out)
}

/// Writes the line of a run.
fn push_run(out: &mut Vec<u8>, run: Run) -> Result<(), AllocError>
    ensures { OnOk result (out.new.items ≡ out.old.items ++ (line_of Slots run ++ 10 ∷ [])) }
{
    push_number(out, u64::from(run.stream / SLOTS))?;
    push_space(out)?;
    push_number(out, u64::from(run.stream % SLOTS))?;
    push_space(out)?;
    push_number(out, u64::from(run.count))?;
    end_line(out)
}
