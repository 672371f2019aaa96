//! Whole runs.

ghost use Rattle.std.specs.Prelude.{◌≡◌, ◌≤◌, ◌↔◌, IsTrue};
ghost use Rattle.std.specs.List.{list_all};
ghost use Rattle.xc_isa.specs.Machine.{HasQuit};
ghost use Rattle.xc_machine.specs.Machines.{state_of, code_of, limits_of, steps_of};
ghost use Rattle.xc_machine.specs.InnerMachines.{RunsSame};
ghost use Rattle.xc_machine_slots.specs.Seats.{is_idle};
ghost use Rattle.xc_machine.specs.Runs.{ready_flags, RunsTo, Rests};

use crate::machine::Machine;
use crate::stepped::Stepped;
use xc_isa::TrapKind;
use xc_machine_slots::Seat;
use xc_sched::Chooser;

/// Why a run ended.
#[derive(Clone, Copy)]
pub enum End {
    /// No slot has a stream.
    Ended,
    /// A slot has a stream, and none is ready.
    Stuck,
    /// As many steps were made as were allowed, or the chooser named no stream.
    Unfinished,
    /// The chooser named a stream that is not ready, after so many steps.
    BadChoice(u64),
    /// The step of a stream traps.
    Trap { kind: TrapKind, stream: u32 },
    /// A new segment would pass the limit on live words, or all numbers of segments are used up.
    WordsFull { live: u64, asked: u64 },
    /// What is printed would pass the limit on output.
    OutFull { length: u64, piece: u64 },
    /// The host's memory is used up.
    NoMemory,
}

impl Machine<'_> {
    /// Asks each stream anew whether it is ready.
    fn refresh(&mut self)
        ensures flags { self.new.ready ≡ ready_flags (code_of self.old) (state_of self.old) }
        ensures state { state_of self.new ≡ state_of self.old }
        ensures same { RunsSame self.old self.new }
    {
        for s in 0..self.seats.len() as u32 {
            let on = self.ready(s);
            self.ready.set(s, on);
        }
    }

    /// Whether no slot has a stream.
    fn has_quit(&self) -> bool
        ensures { IsTrue result ↔ HasQuit (state_of self.now) }
    {
        are_idle(&self.seats)
    }

    /// Ended or stuck. None: a stream is ready.
    fn rest(&mut self) -> Option<End>
        ensures rest { Rests (code_of self.old) (state_of self.old) result }
        ensures flags { self.new.ready ≡ ready_flags (code_of self.old) (state_of self.old) }
        ensures state { state_of self.new ≡ state_of self.old }
        ensures same { RunsSame self.old self.new }
    {
        self.refresh();
        if self.ready.count() > 0 {
            None
        } else if self.has_quit() {
            Some(End::Ended)
        } else {
            Some(End::Stuck)
        }
    }

    /// Steps until no slot has a stream, none can go on, so many steps were made by this call, or a step is refused. Which stream
    /// steps is the chooser's choice among those that are ready.
    pub fn run<C: Chooser>(&mut self, chooser: &mut C, limit: u64) -> End
        ensures run { RunsTo C.picks (code_of self.old) (limits_of self.old) limit chooser.old (state_of self.old) (steps_of self.old) chooser.new (state_of self.new) (steps_of self.new) result }
        ensures code { code_of self.new ≡ code_of self.old }
        ensures limits { limits_of self.new ≡ limits_of self.old }
    {
        for made in 0..limit {
            if let Some(end) = self.rest() {
                return end;
            }
            let Some(s) = chooser.next(&self.ready) else {
                return End::Unfinished;
            };
            match self.step(s) {
                Stepped::Went => {}
                Stepped::NotReady => return End::BadChoice(made),
                Stepped::Trap(kind) => return End::Trap { kind, stream: s },
                Stepped::WordsFull { live, asked } => return End::WordsFull { live, asked },
                Stepped::OutFull { length, piece } => return End::OutFull { length, piece },
                Stepped::NoMemory => return End::NoMemory,
            }
        }
        match self.rest() {
            Some(end) => end,
            None => End::Unfinished,
        }
    }
}

/// Whether no slot has a stream.
fn are_idle(seats: &[Seat]) -> bool
    ensures { result ≡ list_all (λ o. is_idle o) seats.now }
{
    seats.iter().all(|seat| seat.is_idle())
}
