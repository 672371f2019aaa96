//! Code that is being read.

ghost use Rattle.std.specs.Prelude.{◌≡◌, ◌∷◌, [], MatchResult, Some, None};
ghost use Rattle.std.specs.Option.{option_and_then};
ghost use Rattle.xc_text_lines.specs.Lines.{words_of};
ghost use Rattle.xc_isa_text.specs.Operands.{Number, Value, State};
ghost use Rattle.xc_isa_text.specs.InnerOperands.{numbers_in, none_left};
ghost use Rattle.xc_isa_text.specs.InnerReadings.{at_start, with_global, with_run, bytes_in, with_format, with_mark, with_code, data_next, with_instr, with_runs, contents_in, next, whole};
ghost use Rattle.xc_isa_text.specs.InnerInstructions.{instr_in};
ghost use Rattle.xc_isa_text.specs.Texts.{contents_of};
ghost use Rattle.xc_isa.specs.Texts.{HasText};

use crate::follow::{mark_may_follow, run_may_follow};
use crate::instr::instr_of;
use crate::keyword::Keyword;
use crate::operand::Full;
use crate::words::{Words, five, none, one, three};
use sqlite_items::Items;
use std::alloc::Global;
use std::marker::Model;
use std::mem;
use xc_isa::{Code, Instr, LoopMark, Run};
use xc_text_format::conversions;
use xc_text_lines::{LineReader, Refused, hex_bytes};
use xc_word::Cell;

/// Which part of the text comes next.
#[derive(Clone, Copy, PartialEq, Eq)]
pub(crate) enum Stage {
    Start,
    Data,
    Code,
}

/// What has been read.
#[derive(Drop)]
pub(crate) struct Draft {
    alloc: Global,
    stage: Stage,
    /// How many cells the last global lacks.
    missing: u32,
    /// The runs of the last global, as long as it lacks cells.
    runs: Items<Run>,
    globals: Items<Items<Run>>,
    formats: Items<Items<u8>>,
    loops: Items<LoopMark>,
    instrs: Items<Instr>,
}

impl Model for Draft {
    ghost use Rattle.xc_isa_text.specs.Readings.{Reading};

    ghost Value = { Reading };

    ghost view = { λ d. record { stage = d.stage; missing = d.missing; runs = d.runs; globals = d.globals; formats = d.formats; loops = d.loops; instrs = d.instrs } };
}

impl Draft {
    pub(crate) fn new(alloc: Global) -> Draft
        ensures { result ≡ at_start }
    {
        Draft {
            alloc,
            stage: Stage::Start,
            missing: 0,
            runs: Items::new(alloc),
            globals: Items::new(alloc),
            formats: Items::new(alloc),
            loops: Items::new(alloc),
            instrs: Items::new(alloc),
        }
    }

    /// The code that has been read.
    pub(crate) fn finished(self) -> Code
        requires { HasText self.globals self.formats self.loops self.instrs }
        ensures { contents_of result ≡ contents_in self }
    {
        let Draft {
            globals,
            formats,
            loops,
            instrs,
            ..
        } = self;
        Code {
            globals,
            formats,
            loops,
            instrs,
        }
    }

    /// A global begins.
    fn open_global(&mut self, words: &mut Words) -> Result<(), Refused>
        ensures { MatchResult result
            (λ _. option_and_then (with_global self.old) (numbers_in (Number ∷ []) words.old) ≡ Some self.new)
            (λ e. e ≡ Refused.Line → option_and_then (with_global self.old) (numbers_in (Number ∷ []) words.old) ≡ None) }
    {
        let Some(size) = one::<u32>(words) else {
            return Err(Refused::Line);
        };
        if size == 0 || self.missing != 0 || self.formats.len() != 0 || self.loops.len() != 0 {
            return Err(Refused::Line);
        }
        self.missing = size;
        Ok(())
    }

    /// So many cells alike follow in the last global.
    fn add_run(&mut self, words: &mut Words) -> Result<(), Refused>
        ensures { MatchResult result (λ _. option_and_then (with_run self.old) (numbers_in (Number ∷ Value ∷ State ∷ []) words.old) ≡ Some self.new)
            (λ e. e ≡ Refused.Line → option_and_then (with_run self.old) (numbers_in (Number ∷ Value ∷ State ∷ []) words.old) ≡ None) }
    {
        let Some((count, value, full)) = three::<u32, u64, Full>(words) else {
            return Err(Refused::Line);
        };
        let full = full.0;
        let run = Run {
            count,
            cell: Cell { value, full },
        };
        if count == 0 || count > self.missing || !run_may_follow(self.runs.as_slice(), &run) {
            return Err(Refused::Line);
        }
        self.runs.push(run)?;
        self.missing -= count;
        self.end_global()
    }

    /// The last global ends, where it lacks no cell.
    fn end_global(&mut self) -> Result<(), Refused>
        ensures { MatchResult result (λ _. self.new ≡ with_runs self.old self.old.missing self.old.runs)
            (λ e. e ≡ Refused.NoMemory) }
    {
        if self.missing == 0 {
            let runs = mem::replace(&mut self.runs, Items::new(self.alloc));
            self.globals.push(runs)?;
        }
        Ok(())
    }

    /// A format follows.
    fn add_format(&mut self, words: &mut Words) -> Result<(), Refused>
        ensures { MatchResult result (λ _. option_and_then (with_format self.old) (bytes_in words.old) ≡ Some self.new)
            (λ e. e ≡ Refused.Line → option_and_then (with_format self.old) (bytes_in words.old) ≡ None) }
    {
        let Some(word) = words.next() else {
            return Err(Refused::Line);
        };
        if none(words).is_none() {
            return Err(Refused::Line);
        }
        let Some(bytes) = hex_bytes(self.alloc, word)? else {
            return Err(Refused::Line);
        };
        if self.missing != 0 || self.loops.len() != 0 || conversions(&bytes).is_none() {
            return Err(Refused::Line);
        }
        self.formats.push(Items::from_vec(bytes))?;
        Ok(())
    }

    /// The mark of a loop follows.
    fn add_mark(&mut self, words: &mut Words) -> Result<(), Refused>
        ensures { MatchResult result (λ _. option_and_then (with_mark self.old) (numbers_in (Number ∷ Number ∷ Number ∷ Number ∷ Number ∷ []) words.old) ≡ Some self.new)
            (λ e. e ≡ Refused.Line → option_and_then (with_mark self.old) (numbers_in (Number ∷ Number ∷ Number ∷ Number ∷ Number ∷ []) words.old) ≡ None) }
    {
        let Some((id, start, worker, serial, after)) = five(words) else {
            return Err(Refused::Line);
        };
        let mark = LoopMark {
            id,
            start,
            worker,
            serial,
            after,
        };
        if self.missing != 0 || !mark_may_follow(self.loops.as_slice(), &mark) {
            return Err(Refused::Line);
        }
        self.loops.push(mark)?;
        Ok(())
    }

    /// The instructions begin.
    fn begin_code(&mut self, words: &mut Words) -> Result<(), Refused>
        ensures { MatchResult result (λ _. option_and_then (with_code self.old) (none_left words.old) ≡ Some self.new)
            (λ e. e ≡ Refused.Line → option_and_then (with_code self.old) (none_left words.old) ≡ None) }
    {
        if none(words).is_none() || self.missing != 0 {
            return Err(Refused::Line);
        }
        self.stage = Stage::Code;
        Ok(())
    }

    /// A line before the instructions.
    fn take_data(&mut self, line: &[u8]) -> Result<(), Refused>
        ensures { MatchResult result (λ _. data_next self.old (words_of line.now) ≡ Some self.new)
            (λ e. e ≡ Refused.Line → data_next self.old (words_of line.now) ≡ None) }
    {
        let mut words = Words::new(line);
        let Some(word) = words.next() else {
            return Err(Refused::Line);
        };
        match Keyword::named(word) {
            Some(Keyword::Global) => self.open_global(&mut words),
            Some(Keyword::Cells) => self.add_run(&mut words),
            Some(Keyword::Format) => self.add_format(&mut words),
            Some(Keyword::Loop) => self.add_mark(&mut words),
            Some(Keyword::Code) => self.begin_code(&mut words),
            None => Err(Refused::Line),
        }
    }

    /// A line that is an instruction.
    fn take_instr(&mut self, line: &[u8]) -> Result<(), Refused>
        ensures { MatchResult result
            (λ _. option_and_then (with_instr self.old) (instr_in (words_of line.now)) ≡ Some self.new)
            (λ e. e ≡ Refused.Line → option_and_then (with_instr self.old) (instr_in (words_of line.now)) ≡ None) }
    {
        let Some(instr) = instr_of(line) else {
            return Err(Refused::Line);
        };
        self.instrs.push(instr)?;
        Ok(())
    }
}

impl LineReader for Draft {
    ghost next = { next };

    ghost whole = { whole };

    fn take(&mut self, line: &[u8]) -> Result<(), Refused> {
        match self.stage {
            Stage::Start => {
                if line != b"xmtasm 1".as_slice() {
                    return Err(Refused::Line);
                }
                self.stage = Stage::Data;
                Ok(())
            }
            Stage::Data => self.take_data(line),
            Stage::Code => self.take_instr(line),
        }
    }

    fn is_whole(&self) -> bool {
        self.stage == Stage::Code
    }
}
