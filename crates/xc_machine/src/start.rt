//! The machine as code begins.

ghost use Rattle.std.specs.Prelude.{◌≡◌, ◌<◌, ◌≤◌, ◌+◌, ◌-◌, ◌*◌, ◌^◌, ◌++◌, length, map, replicate, All, None, OnOk, IfOk};
ghost use Rattle.std.specs.List.{sum_by};
ghost use Rattle.xc_meaning_world.specs.World.{segs_of};
ghost use Rattle.xc_isa.specs.Texts.{cells_of, size_of, IsGlobal};
ghost use Rattle.xc_machine.specs.Shows.{segs_in};

use crate::machine::Machine;
use crate::store::Store;
use sqlite_items::Items;
use std::alloc::{AllocError, Global};
use thiserror::Error;
use xc_isa::{Code, Run};
use xc_machine_slots::{Seat, Stream, free_seats};
use xc_sched::Ready;
use xc_word::{Cell, Memory};

/// Why there is no machine.
#[derive(Clone, Copy, Debug, Error)]
pub enum NewFault {
    /// The globals have so many words, more than may be live.
    #[error("the globals have {0} words")]
    Words(u64),
    /// The host's memory is used up.
    #[error("no memory")]
    NoMemory,
}

impl From<AllocError> for NewFault {
    ghost use Rattle.std.specs.Prelude.{◌≡◌};
    ghost use Rattle.xc_machine.specs.declared.start.NewFault.TheVariants.{NoMemory};

    ghost from_gives = { λ _ e. e ≡ NoMemory };

    fn from(_: AllocError) -> NewFault {
        NewFault::NoMemory
    }
}

/// Appends the cells of a run.
fn push_cells(cells: &mut Vec<Cell>, run: Run) -> Result<(), AllocError>
    ensures { OnOk result (cells.new.items ≡ cells.old.items ++ replicate run.count run.cell) }
{
    for _ in 0..run.count {
        cells.push(run.cell)?;
    }
    Ok(())
}

/// The cells of a global.
fn cells_in(alloc: Global, runs: &[Run]) -> Result<Vec<Cell>, AllocError>
    ensures { IfOk result (λ cells. cells.items ≡ cells_of runs.now) }
{
    let mut cells = Vec::new(alloc);
    for run in runs {
        push_cells(&mut cells, *run)?;
    }
    Ok(cells)
}

/// How many cells a global has.
fn size(runs: &[Run]) -> u64
    requires { size_of runs.now < 2 ^ 32 }
    ensures { result ≡ size_of runs.now }
{
    runs.iter().map(|run| u64::from(run.count)).sum()
}

/// How many cells the globals have.
fn words_in(globals: &[Items<Run>]) -> u64
    requires each { All IsGlobal globals.now }
    requires few { length globals.now < 2 ^ 32 }
    ensures { result ≡ sum_by size_of globals.now }
{
    let mut words = 0;
    for global in globals {
        words += size(global.as_slice());
    }
    words
}

/// The segments of the globals, from 1 on.
fn memory_of(alloc: Global, globals: &[Items<Run>]) -> Result<Memory, AllocError>
    requires { length globals.now < 2 ^ 32 - 1 }
    ensures { IfOk result (λ memory. segs_in memory ≡ segs_of (map cells_of globals.now)) }
{
    let mut memory = Memory::new(alloc);
    let mut last = 0;
    for global in globals {
        last += 1;
        let cells = cells_in(alloc, global.as_slice())?;
        match memory.add_cells(last, cells) {
            Ok(()) => {}
            Err(_) => return Err(AllocError),
        }
    }
    Ok(memory)
}

impl<'a> Machine<'a> {
    ghost use Rattle.std.specs.Prelude.{ℕ, MatchResult};
    ghost use Rattle.xc_isa.specs.Machine.{start, live_words};
    ghost use Rattle.xc_machine.specs.Machines.{state_of, code_of, limits_of, steps_of};

    /// The machine as code begins: processors of so many streams each, the most live words, those of the globals included, and the
    /// most bytes of output.
    pub fn new(
        alloc: Global,
        code: &'a Code,
        processors: u32,
        streams: u32,
        words: u64,
        out: u64,
    ) -> Result<Machine<'a>, NewFault>
        requires some_stream { 1 ≤ streams }
        requires few_streams { streams ≤ 128 }
        requires some_processor { 1 ≤ processors }
        requires few_processors { processors ≤ 64 }
        requires few_words { words ≤ 2 ^ 24 }
        requires little_out { out ≤ 2 ^ 20 }
        ensures starts { IfOk result (λ m. state_of m ≡ start code.now processors streams) }
        ensures code { IfOk result (λ m. code_of m ≡ code.now) }
        ensures limits { IfOk result (λ m. limits_of m ≡ record { words = words; out = out }) }
        ensures steps { IfOk result (λ m. steps_of m ≡ 0) }
        // The globals' words decide whether there is a machine, but for want of memory.
        ensures full { MatchResult result (λ _. live_words (start code.now processors streams) ≤ words)
            (λ e. (n : ℕ) → e ≡ NewFault.Words n → (n ≡ live_words (start code.now processors streams)) × (words < n)) }
    {
        let globals = code.globals.as_slice();
        let live = words_in(globals);
        if live > words {
            return Err(NewFault::Words(live));
        }
        let memory = memory_of(alloc, globals)?;
        let store = Store::starting(alloc, memory, globals.len() as u32, live, words, out);
        let mut seats = free_seats(alloc, processors, streams)?;
        seats[0] = Seat::Taken(Stream::first());
        let ready = Ready::new(alloc, seats.len() as u32)?;
        Ok(Machine {
            code,
            seats,
            store,
            ready,
            steps: 0,
        })
    }
}
