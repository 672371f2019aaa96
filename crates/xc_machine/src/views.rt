//! What a machine shows.

ghost use Rattle.std.specs.Prelude.{◌≡◌, ◌↔◌, Some, IsTrue, slice_get};
ghost use Rattle.xc_isa.specs.Machine.{IsReady, step, live_words};
ghost use Rattle.xc_machine.specs.Limits.{can_step, position_in, register_in};
ghost use Rattle.xc_machine.specs.Machines.{state_of, code_of, steps_of};
ghost use Rattle.xc_machine_slots.specs.Registers.{regs_of};
ghost use Rattle.xc_machine.specs.Targets.{can_go};
ghost use Rattle.xc_isa.specs.Effects.{effect};

use crate::machine::{Machine, instr_at};
use crate::target::{admits, target_in};
use crate::values::place;
use xc_isa::Reg;
use xc_machine_slots::{Seat, Stream};
use xc_word::{Cell, Place};

impl Machine<'_> {
    /// Whether the stream in a slot need not wait; false where there is none.
    pub fn ready(&self, s: u32) -> bool
        ensures can { result ≡ can_step (step (code_of self.now) s (state_of self.now)) }
        ensures is { IsTrue result ↔ IsReady (code_of self.now) s (state_of self.now) }
    {
        match self.seats.get(s as usize) {
            Some(Seat::Taken(stream)) => self.can_go(stream),
            _ => false,
        }
    }

    /// Whether a stream need not wait.
    fn can_go(&self, stream: &Stream) -> bool
        ensures { result ≡ can_go (effect (code_of self.now).formats (slice_get (code_of self.now).instrs stream.now.at) stream.now.at (regs_of stream.now.regs)) (state_of self.now).world }
    {
        let Some(instr) = instr_at(self.code, stream.at) else {
            return true;
        };
        let Some(target) = target_in(stream, instr) else {
            return true;
        };
        match place(target.pointer, target.off) {
            Some(place) => admits(target.kind, self.store.cell(place)),
            None => true,
        }
    }

    /// The position of the stream in a slot. None: there is no stream.
    pub fn at(&self, s: u32) -> Option<u64>
        ensures { result ≡ position_in (slice_get (state_of self.now).slots s) }
    {
        self.position(s)
    }

    /// What a register of the stream in a slot holds. None: there is no stream, or no such register.
    pub fn register(&self, s: u32, register: u32) -> Option<u64>
        ensures { result ≡ register_in (slice_get (state_of self.now).slots s) register }
    {
        if register >= 32 {
            return None;
        }
        match self.seats.get(s as usize) {
            Some(Seat::Taken(stream)) => Some(stream.read(Reg::new(register as u8))),
            _ => None,
        }
    }

    /// What has been printed.
    pub fn output(&self) -> &[u8]
        ensures { result.now ≡ (state_of self.now).world.out }
    {
        self.store.output()
    }

    /// The cell at a place. None: no live segment has the place.
    pub fn cell(&self, place: Place) -> Option<Cell>
        ensures { result ≡ slice_get ((state_of self.now).world.segs place.seg) place.off }
    {
        self.store.cell(place)
    }

    /// How many steps were made, up to 2^64 - 1.
    pub fn steps(&self) -> u64
        ensures { result ≡ steps_of self.now }
    {
        self.steps
    }

    /// How many words are live, those of the globals included.
    pub fn live(&self) -> u64
        ensures { result ≡ live_words (state_of self.now) }
    {
        self.store.live()
    }
}
