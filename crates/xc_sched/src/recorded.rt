//! Recorded schedules.

ghost use Rattle.std.specs.Prelude.{◌≡◌, ◌-◌, ◌^◌, [], length, min, Some, None, IfOk, MatchResult};
ghost use Rattle.xc_sched.specs.Losses.{Adds};

use crate::chooser::Chooser;
use crate::ready::Ready;
use crate::recorder::Loss;
use crate::run::{RUNS, Run, STEPS, STREAMS, is_other, rest};
use std::alloc::{AllocError, Global};
use std::marker::Model;

/// Steps that have a text, in order, and how far they have been replayed.
///
/// Contracts see the streams that are left, step by step.
#[derive(Debug, Drop)]
pub struct Recorded {
    pub(crate) runs: Vec<Run>,
    pub(crate) at: usize,
}

impl Model for Recorded {
    ghost use Rattle.std.specs.Prelude.{List, ℕ, drop};
    ghost use Rattle.xc_sched.specs.Runs.{steps_of, KeepsRuns};

    ghost Value = { List ℕ };

    ghost view = { λ r. steps_of (drop r.at r.runs.items) };

    ghost invariant = { λ r. KeepsRuns r.at r.runs.items };
}

impl Recorded {
    /// No steps.
    pub(crate) fn new(alloc: Global) -> Recorded
        ensures { result ≡ [] }
    {
        Recorded {
            runs: Vec::new(alloc),
            at: 0,
        }
    }

    /// How many steps are left; 2^64 - 1 stands for all numbers from there on.
    pub fn left(&self) -> u64
        ensures { result ≡ min (length self.now) (2 ^ 64 - 1) }
    {
        let mut left = 0u64;
        for run in rest(&self.runs, self.at) {
            left = left.saturating_add(u64::from(run.count));
        }
        left
    }

    /// An equal schedule, with the same steps left.
    pub fn copy(&self) -> Result<Recorded, AllocError>
        ensures { IfOk result (λ r. r ≡ self.now) }
    {
        Ok(Recorded {
            runs: self.runs.clone()?,
            at: self.at,
        })
    }

    /// Adds a step at the end.
    pub(crate) fn push(&mut self, stream: u32) -> Result<(), Loss>
        ensures { MatchResult result (λ _. Adds self.old stream None self.new)
            (λ loss. Adds self.old stream (Some loss) self.new) }
    {
        if stream >= STREAMS {
            return Err(Loss::Stream(stream));
        }
        if is_other(rest(&self.runs, self.at), stream) {
            if self.runs.len() >= RUNS {
                return Err(Loss::NoMemory);
            }
            let pushed = self.runs.push(Run { stream, count: 1 });
            if pushed.is_err() {
                return Err(Loss::NoMemory);
            }
            return Ok(());
        }
        let last = self.runs.len() - 1;
        let run = self.runs[last];
        if run.count >= STEPS {
            return Err(Loss::Steps);
        }
        let count = run.count + 1;
        self.runs[last] = Run { stream, count };
        Ok(())
    }
}

impl Chooser for Recorded {
    ghost use Rattle.xc_sched.specs.Choices.{PicksNext};

    ghost picks = { PicksNext };

    fn next(&mut self, _ready: &Ready) -> Option<u32> {
        if self.at >= self.runs.len() {
            return None;
        }
        let run = self.runs[self.at];
        if run.count == 1 {
            self.at += 1;
        } else {
            self.runs[self.at].count = run.count - 1;
        }
        Some(run.stream)
    }
}
