//! A run, and what comes of it.

ghost use Rattle.std.specs.Prelude.{◌≡◌, ℕ, true, List, [], None, IfOk};
ghost use Rattle.std.specs.Option.{option_map};
ghost use Rattle.xc_machine.specs.Machines.{state_of, code_of, limits_of, steps_of};
ghost use Rattle.xc_machine_play.specs.Plays.{ending_of, Played, PlaysBy, Plays, IsRecord};

use crate::source::{Plan, Source};
use std::alloc::{AllocError, Global};
use xc_isa::{Code, TrapKind};
use xc_machine::{End, Machine, NewFault};
use xc_sched::{Recorder, RoundRobin, Seeded, print_schedule};
use xc_top_words::Options;

/// Why a run ended.
#[derive(Clone, Copy)]
pub enum Ending {
    /// All streams have ended.
    Ended,
    /// All streams have ended, and choices are left that were to be made.
    Left,
    /// A stream has not ended, and none is ready.
    Stuck,
    /// As many steps were made as were allowed, or all choices were made, and a stream is ready.
    Unfinished,
    /// A stream was named that is not ready.
    BadChoice,
    /// The step of a stream traps.
    Trap { kind: TrapKind, stream: u32 },
    /// More words would be live than may be, or all numbers of segments are used up.
    WordsFull { live: u64, asked: u64 },
    /// More would be printed than may be.
    OutFull { length: u64, piece: u64 },
}

/// What comes of a run.
#[derive(Drop)]
pub struct Outcome {
    pub ending: Ending,
    /// How many steps were made.
    pub steps: u64,
    /// What was printed.
    pub out: Vec<u8>,
    /// The choices as the text of a schedule, where they are wanted.
    pub choices: Option<Vec<u8>>,
}

/// Why a run ended. None: the host's memory is used up.
fn why(end: End, left: bool) -> Option<Ending>
    ensures { result ≡ ending_of end left }
{
    Some(match end {
        End::Ended => { if left { Ending::Left } else { Ending::Ended } }
        End::Stuck => Ending::Stuck,
        End::Unfinished => Ending::Unfinished,
        End::BadChoice(_) => Ending::BadChoice,
        End::Trap { kind, stream } => Ending::Trap { kind, stream },
        End::WordsFull { live, asked } => Ending::WordsFull { live, asked },
        End::OutFull { length, piece } => Ending::OutFull { length, piece },
        End::NoMemory => return None,
    })
}

/// What comes of a run that has ended.
fn finish(
    alloc: Global,
    machine: &Machine,
    ending: Ending,
    choices: Option<Vec<u8>>,
) -> Result<Outcome, AllocError>
    ensures { IfOk result (λ o. (o.ending ≡ ending) × (o.steps ≡ steps_of machine.now) × (o.out.items ≡ (state_of machine.now).world.out) × (option_map (λ v. v.items) o.choices ≡ option_map (λ v. v.items) choices)) }
{
    let out = Vec::from_slice(alloc, machine.output())?;
    Ok(Outcome {
        ending,
        steps: machine.steps(),
        out,
        choices,
    })
}

/// Runs code by a chooser.
fn plain<C: Plan>(
    alloc: Global,
    machine: &mut Machine,
    limit: u64,
    chooser: C,
) -> Result<Outcome, AllocError>
    requires { steps_of machine.old ≡ 0 }
    ensures { IfOk result (λ o. (option_map (λ v. v.items) o.choices ≡ None) × ((named : List ℕ) × Played C.picks C.has_left chooser (code_of machine.old) (limits_of machine.old) (state_of machine.old) limit o.ending o.steps o.out.items named)) }
{
    let mut chooser = chooser;
    let end = machine.run(&mut chooser, limit);
    let Some(ending) = why(end, chooser.is_left()) else {
        return Err(AllocError);
    };
    finish(alloc, machine, ending, None)
}

/// Runs code by a chooser, and records its choices.
fn recorded<C: Plan>(
    alloc: Global,
    machine: &mut Machine,
    limit: u64,
    chooser: C,
) -> Result<Outcome, AllocError>
    requires { steps_of machine.old ≡ 0 }
    ensures { IfOk result (λ o. (named : List ℕ) × IsRecord true named (option_map (λ v. v.items) o.choices) × Played C.picks C.has_left chooser (code_of machine.old) (limits_of machine.old) (state_of machine.old) limit o.ending o.steps o.out.items named) }
{
    let mut recorder = Recorder::new(alloc, chooser);
    let end = machine.run(&mut recorder, limit);
    if recorder.lost().is_some() {
        return Err(AllocError);
    }
    let Some(ending) = why(end, recorder.inner().is_left()) else {
        return Err(AllocError);
    };
    let choices = print_schedule(alloc, recorder.taken())?;
    finish(alloc, machine, ending, Some(choices))
}

/// The globals alone are too many words.
fn too_big(alloc: Global, words: u64, recorded: bool) -> Result<Outcome, AllocError>
    ensures { IfOk result (λ o. (o.ending ≡ Ending.WordsFull 0 words) × (o.steps ≡ 0) × (o.out.items ≡ []) × IsRecord recorded [] (option_map (λ v. v.items) o.choices)) }
{
    let choices = if recorded {
        Some(print_schedule(alloc, no_steps(alloc).taken())?)
    } else {
        None
    };
    Ok(Outcome {
        ending: Ending::WordsFull {
            live: 0,
            asked: words,
        },
        steps: 0,
        out: Vec::new(alloc),
        choices,
    })
}

/// Runs code as options say, by a chooser.
fn play_by<C: Plan>(
    alloc: Global,
    code: &Code,
    options: &Options,
    chooser: C,
) -> Result<Outcome, AllocError>
    ensures { IfOk result (λ o. (named : List ℕ) × IsRecord options.now.recorded named (option_map (λ v. v.items) o.choices) × PlaysBy C.picks C.has_left chooser code.now options.now o.ending o.steps o.out.items named) }
{
    let processors = options.processors.number() as u32;
    let streams = options.streams.number() as u32;
    let words = options.words.number();
    let out = options.out.number();
    let limit = options.steps.number();
    match Machine::new(alloc, code, processors, streams, words, out) {
        Ok(machine) => {
            let mut machine = machine;
            if options.recorded {
                recorded(alloc, &mut machine, limit, chooser)
            } else {
                plain(alloc, &mut machine, limit, chooser)
            }
        }
        Err(NewFault::Words(words)) => too_big(alloc, words, options.recorded),
        Err(NewFault::NoMemory) => Err(AllocError),
    }
}

/// Runs code as options say; what chooses the streams is told apart.
pub fn play(
    alloc: Global,
    code: &Code,
    options: &Options,
    source: Source,
) -> Result<Outcome, AllocError>
    ensures { IfOk result (λ o. (named : List ℕ) × IsRecord options.now.recorded named (option_map (λ v. v.items) o.choices) × Plays source code.now options.now o.ending o.steps o.out.items named) }
{
    match source {
        Source::Turns => play_by(alloc, code, options, RoundRobin::new()),
        Source::Seed(seed) => play_by(alloc, code, options, Seeded::new(seed)),
        Source::Schedule(steps) => play_by(alloc, code, options, steps),
    }
}

/// A record of no steps.
fn no_steps(alloc: Global) -> Recorder<RoundRobin>
    ensures { result.1 ≡ [] }
{
    Recorder::new(alloc, RoundRobin::new())
}
