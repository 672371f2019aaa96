//! A schedule that is being read.

ghost use Rattle.std.specs.Prelude.{◌≡◌};
ghost use Rattle.xc_text_lines.specs.Lines.{words_of};
ghost use Rattle.xc_text_lines.specs.Numbers.{number_of};
ghost use Rattle.xc_sched.specs.Drafts.{form_of as form_of_line, count_of, stream_at as stream_of, run_of as run_of_words, next, whole};

use crate::form::Form;
use crate::run::{PROCESSORS, Run, SLOTS, STEPS, is_other};
use std::alloc::AllocError;
use std::marker::Model;
use xc_text_lines::{LineReader, Refused, cut_word, number_below};

/// The streams that have a name in the first form are below this.
const NUMBERED: u64 = 1024;

/// The form, once the first line was read, and the runs so far.
#[derive(Drop)]
pub(crate) struct Draft {
    pub(crate) form: Option<Form>,
    pub(crate) runs: Vec<Run>,
}

impl Model for Draft {
    ghost use Rattle.std.specs.Prelude.{List, Option};
    ghost use Rattle.xc_sched.specs.declared.run.Run.{Run};
    ghost use Rattle.xc_sched.specs.declared.form.Form.{Form};

    ghost Value = { Option Form × List Run };

    ghost view = { λ d. (d.form, d.runs.items) };
}

/// The form that a first line begins.
fn form_of(line: &[u8]) -> Option<Form>
    ensures { result ≡ form_of_line line.now }
{
    if line == b"schedule 1".as_slice() {
        return Some(Form::Streams);
    }
    if line == b"schedule 2".as_slice() {
        return Some(Form::Slots);
    }
    None
}

/// The run that a line spells.
fn run_of(form: Form, line: &[u8]) -> Option<Run>
    ensures { result ≡ run_of_words form (words_of line.now) }
{
    let (first, rest) = cut_word(line)?;
    let (stream, count) = match form {
        Form::Streams => (number_below(first, NUMBERED)? as u32, rest),
        Form::Slots => {
            let (second, count) = cut_word(rest)?;
            (stream_at(first, second)?, count)
        }
    };
    let count = count_in(count)?;
    Some(Run { stream, count })
}

/// The stream that a processor and a slot of it name.
fn stream_at(processor: &[u8], slot: &[u8]) -> Option<u32>
    ensures { result ≡ stream_of (number_of 64 processor.now) (number_of 128 slot.now) }
{
    let processor = number_below(processor, u64::from(PROCESSORS))? as u32;
    let slot = number_below(slot, u64::from(SLOTS))? as u32;
    Some(SLOTS * processor + slot)
}

/// The number of steps that the end of a line spells.
fn count_in(end: &[u8]) -> Option<u32>
    ensures { result ≡ count_of (words_of end.now) }
{
    if cut_word(end).is_some() {
        return None;
    }
    let count = number_below(end, u64::from(STEPS) + 1)? as u32;
    if count == 0 {
        return None;
    }
    Some(count)
}

impl LineReader for Draft {
    ghost next = { next };

    ghost whole = { whole };

    fn take(&mut self, line: &[u8]) -> Result<(), Refused> {
        let Some(form) = self.form else {
            self.form = Some(form_of(line).ok_or(Refused::Line)?);
            return Ok(());
        };
        let run = run_of(form, line).ok_or(Refused::Line)?;
        if !is_other(&self.runs, run.stream) {
            return Err(Refused::Line);
        }
        self.runs.push(run).map_err(AllocError::from)?;
        Ok(())
    }

    fn is_whole(&self) -> bool {
        self.form.is_some()
    }
}
