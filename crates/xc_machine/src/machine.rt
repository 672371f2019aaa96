//! The machine, and its steps.

ghost use Rattle.std.specs.Prelude.{◌≡◌, ◌<◌, ◌≤◌, ◌+◌, ◌-◌, ◌^◌, suc, Some, None, IsSome, IfSome, OnSome, ℕ, length, slice_get, slice_set, map, position, is_none};
ghost use Rattle.xc_meaning_world.specs.World.{On, Reach, New, Begin, put};
ghost use Rattle.xc_isa.specs.Effects.{Asks, Goes, Quits, read, load_kind, store_kind, sets, reaches, frees, prints, effect, printed_regs};
ghost use Rattle.xc_isa.specs.Machine.{Live, Empty, free_slot, begun};
ghost use Rattle.xc_machine_slots.specs.Registers.{answered};
ghost use Rattle.std.specs.Option.{option_map};
ghost use Rattle.xc_machine.specs.InnerShows.{stream_in, regs_at};
ghost use Rattle.xc_machine.specs.Targets.{target_of};

use crate::stepped::Stepped;
use crate::store::{Added, Printed, Store};
use crate::target::{Target, target_in};
use crate::values::{SEGMENT_SPAN, distance, divide, holds, moved, operate, place};
use xc_isa::{Code, Instr, Reg, TrapKind};
use xc_machine_slots::{Seat, Stream, pick};
use xc_sched::Ready;
use xc_word::{Access, Applied};

/// Code with its memory, its output, and slots for streams.
#[derive(Drop)]
pub struct Machine<'a> {
    pub(crate) code: &'a Code,
    pub(crate) seats: Vec<Seat>,
    pub(crate) store: Store,
    pub(crate) ready: Ready,
    pub(crate) steps: u64,
    ghost few: { length seats.items ≤ 8192 },
    ghost each: { length ready ≡ length seats.items },
}

impl Machine<'_> {
    ghost use Rattle.xc_machine.specs.Machines.{state_of, code_of, limits_of, steps_of, counted};
    ghost use Rattle.xc_machine.specs.InnerMachines.{RunsSame};
    ghost use Rattle.xc_machine.specs.Limits.{Steps};
    ghost use Rattle.xc_machine.specs.InnerLimits.{Makes};

    /// The stream in a slot goes on at another position, with a word in a register where one is named.
    fn go(&mut self, s: u32, at: u64, to: Option<Reg>, word: u64)
        requires live { IsSome (stream_in self.old.seats.items s) }
        ensures state { state_of self.new ≡ record (state_of self.old) { slots = slice_set (state_of self.old).slots s (Live at (answered (regs_at (stream_in self.old.seats.items s)) to word)) } }
        ensures same { RunsSame self.old self.new }
    {
        if let Seat::Taken(stream) = &mut self.seats[s as usize] {
            stream.go(at, to, word);
        }
    }

    /// What a register of the stream in a slot holds.
    fn read(&self, s: u32, r: Reg) -> u64
        requires { s < length self.now.seats.items }
        ensures { result ≡ read (regs_at (stream_in self.now.seats.items s)) r }
    {
        match &self.seats[s as usize] {
            Seat::Taken(stream) => stream.read(r),
            Seat::Absent | Seat::Free => 0,
        }
    }

    /// A register gets a word.
    fn set(&mut self, s: u32, at: u64, to: Reg, word: u64) -> Stepped
        requires live { IsSome (stream_in self.old.seats.items s) }
        requires next { at + 1 < 2 ^ 64 }
        ensures does { Makes (limits_of self.old) result (state_of self.old) (state_of self.new) s (Goes (suc at) (put (regs_at (stream_in self.old.seats.items s)) to word)) }
        ensures same { RunsSame self.old self.new }
    {
        self.go(s, at + 1, Some(to), word);
        Stepped::Went
    }

    /// A register gets a word, or a trap where there is none.
    fn set_or_trap(
        &mut self,
        s: u32,
        at: u64,
        to: Reg,
        word: Option<u64>,
        kind: TrapKind,
    ) -> Stepped
        requires live { IsSome (stream_in self.old.seats.items s) }
        requires next { at + 1 < 2 ^ 64 }
        ensures does { Makes (limits_of self.old) result (state_of self.old) (state_of self.new) s (sets kind to word (suc at) (regs_at (stream_in self.old.seats.items s))) }
        ensures same { RunsSame self.old self.new }
    {
        match word {
            Some(word) => self.set(s, at, to, word),
            None => Stepped::Trap(kind),
        }
    }

    /// The stream goes to another position.
    fn jump(&mut self, s: u32, at: u64) -> Stepped
        requires live { IsSome (stream_in self.old.seats.items s) }
        ensures does { Makes (limits_of self.old) result (state_of self.old) (state_of self.new) s (Goes at (regs_at (stream_in self.old.seats.items s))) }
        ensures same { RunsSame self.old self.new }
    {
        self.go(s, at, None, 0);
        Stepped::Went
    }

    /// Makes an access.
    fn touch(&mut self, s: u32, at: u64, target: Target) -> Stepped
        requires live { IsSome (stream_in self.old.seats.items s) }
        requires next { at + 1 < 2 ^ 64 }
        ensures does { Makes (limits_of self.old) result (state_of self.old) (state_of self.new) s (reaches target.kind target.pointer target.off target.value (suc at) (answered (regs_at (stream_in self.old.seats.items s)) target.to)) }
        ensures same { RunsSame self.old self.new }
    {
        let Some(place) = place(target.pointer, target.off) else {
            return Stepped::Trap(TrapKind::Place);
        };
        let act = Access {
            kind: target.kind,
            place,
            value: target.value,
        };
        match self.store.touch(&act) {
            Applied::Done(word) => {
                self.go(s, at + 1, target.to, word);
                Stepped::Went
            }
            Applied::Blocked => Stepped::NotReady,
            Applied::Bad => Stepped::Trap(TrapKind::Place),
        }
    }

    /// A new segment of so many cells.
    fn new_segment(&mut self, s: u32, at: u64, to: Reg, cells: u64) -> Stepped
        requires live { IsSome (stream_in self.old.seats.items s) }
        requires next { at + 1 < 2 ^ 64 }
        ensures does { Makes (limits_of self.old) result (state_of self.old) (state_of self.new) s (Asks (On (New cells)) (suc at) (answered (regs_at (stream_in self.old.seats.items s)) (Some to))) }
        ensures same { RunsSame self.old self.new }
    {
        if cells == 0 {
            return Stepped::Trap(TrapKind::Size);
        }
        match self.store.add(cells) {
            Added::At(number) => {
                self.go(s, at + 1, Some(to), u64::from(number) * SEGMENT_SPAN);
                Stepped::Went
            }
            Added::Full => Stepped::WordsFull {
                live: self.store.live(),
                asked: cells,
            },
            Added::NoMemory => Stepped::NoMemory,
        }
    }

    /// Frees the segment that a pointer points to the start of.
    fn free(&mut self, s: u32, at: u64, pointer: u64) -> Stepped
        requires live { IsSome (stream_in self.old.seats.items s) }
        requires next { at + 1 < 2 ^ 64 }
        ensures does { Makes (limits_of self.old) result (state_of self.old) (state_of self.new) s (frees pointer (suc at) (regs_at (stream_in self.old.seats.items s))) }
        ensures same { RunsSame self.old self.new }
    {
        if pointer % SEGMENT_SPAN == 0 && self.store.free((pointer >> 32) as u32) {
            self.go(s, at + 1, None, 0);
            Stepped::Went
        } else {
            Stepped::Trap(TrapKind::Place)
        }
    }

    /// Prints r24 and the registers that follow.
    fn print(&mut self, s: u32, at: u64, format: u32) -> Stepped
        requires live { IsSome (stream_in self.old.seats.items s) }
        requires next { at + 1 < 2 ^ 64 }
        ensures does { Makes (limits_of self.old) result (state_of self.old) (state_of self.new) s (prints (slice_get (code_of self.old).formats format) (suc at) (regs_at (stream_in self.old.seats.items s))) }
        ensures same { RunsSame self.old self.new }
    {
        let code = self.code;
        let Some(format) = code.formats.get(format as usize) else {
            return Stepped::Trap(TrapKind::Format);
        };
        let values = self.printed(s);
        match self.store.print(format.as_slice(), &values) {
            Printed::Done => {
                self.go(s, at + 1, None, 0);
                Stepped::Went
            }
            Printed::Full(piece) => Stepped::OutFull {
                length: self.store.output().len() as u64,
                piece,
            },
            Printed::NoMemory => Stepped::NoMemory,
        }
    }

    /// A stream starts at a position with a word in a free slot, if there is one.
    fn create(&mut self, s: u32, at: u64, to: Reg, start: u32, word: u64) -> Stepped
        requires live { IsSome (stream_in self.old.seats.items s) }
        requires next { at + 1 < 2 ^ 64 }
        ensures does { Makes (limits_of self.old) result (state_of self.old) (state_of self.new) s (Asks (Begin start word) (suc at) (answered (regs_at (stream_in self.old.seats.items s)) (Some to))) }
        ensures same { RunsSame self.old self.new }
    {
        match pick(&self.seats) {
            Some(free) => {
                self.go(s, at + 1, Some(to), 1);
                self.seats[free] = Seat::Taken(Stream::begun(start, word));
            }
            None => self.go(s, at + 1, Some(to), 0),
        }
        Stepped::Went
    }

    /// The stream ends.
    fn quit(&mut self, s: u32) -> Stepped
        requires live { IsSome (stream_in self.old.seats.items s) }
        ensures does { Makes (limits_of self.old) result (state_of self.old) (state_of self.new) s (Quits) }
        ensures same { RunsSame self.old self.new }
    {
        self.seats[s as usize] = Seat::Free;
        Stepped::Went
    }

    /// The registers of the stream in a slot that are printed.
    fn printed(&self, s: u32) -> [u64; 8]
        requires { s < length self.now.seats.items }
        ensures { result ≡ map (read (regs_at (stream_in self.now.seats.items s))) printed_regs }
    {
        match &self.seats[s as usize] {
            Seat::Taken(stream) => stream.printed(),
            Seat::Absent | Seat::Free => [0; 8],
        }
    }

    /// Makes the access of an instruction.
    fn access(&mut self, s: u32, at: u64, instr: Instr) -> Stepped
        requires live { IsSome (stream_in self.old.seats.items s) }
        requires next { at + 1 < 2 ^ 64 }
        requires access { IsSome (target_of (regs_at (stream_in self.old.seats.items s)) instr) }
        ensures does { Makes (limits_of self.old) result (state_of self.old) (state_of self.new) s (effect (code_of self.old).formats (Some instr) at (regs_at (stream_in self.old.seats.items s))) }
        ensures same { RunsSame self.old self.new }
    {
        let Some(target) = self.target(s, instr) else {
            unreachable!()
        };
        self.touch(s, at, target)
    }

    /// The access that an instruction of the stream in a slot makes.
    fn target(&self, s: u32, instr: Instr) -> Option<Target>
        requires live { IsSome (stream_in self.now.seats.items s) }
        ensures { result ≡ target_of (regs_at (stream_in self.now.seats.items s)) instr }
    {
        match &self.seats[s as usize] {
            Seat::Taken(stream) => target_in(stream, instr),
            Seat::Absent | Seat::Free => unreachable!(),
        }
    }

    /// Runs an instruction of the stream in a slot.
    fn obey(&mut self, s: u32, at: u64, instr: Instr) -> Stepped
        requires live { IsSome (stream_in self.old.seats.items s) }
        requires next { at + 1 < 2 ^ 64 }
        ensures does { Makes (limits_of self.old) result (state_of self.old) (state_of self.new) s (effect (code_of self.old).formats (Some instr) at (regs_at (stream_in self.old.seats.items s))) }
        ensures same { RunsSame self.old self.new }
    {
        match instr {
            Instr::Li(d, word) => self.set(s, at, d, word),
            Instr::Addi(d, a, word) => {
                let sum = self.read(s, a).wrapping_add(word);
                self.set(s, at, d, sum)
            }
            Instr::Binary(op, d, a, b) => {
                let word = operate(op, self.read(s, a), self.read(s, b));
                self.set(s, at, d, word)
            }
            Instr::Divide(op, d, a, b) => {
                let word = divide(op, self.read(s, a), self.read(s, b));
                self.set_or_trap(s, at, d, word, TrapKind::Divide)
            }
            Instr::Padd(d, a, b, cells) => {
                let word = moved(self.read(s, a), self.read(s, b), cells);
                self.set_or_trap(s, at, d, word, TrapKind::Range)
            }
            Instr::Psub(d, a, b) => {
                let word = distance(self.read(s, a), self.read(s, b));
                self.set_or_trap(s, at, d, word, TrapKind::Objects)
            }
            Instr::Bound(a, n) => {
                if self.read(s, a) < u64::from(n) {
                    self.jump(s, at + 1)
                } else {
                    Stepped::Trap(TrapKind::Index)
                }
            }
            Instr::Load(_, _, _, _)
            | Instr::Store(_, _, _, _)
            | Instr::Purge(_, _)
            | Instr::Fadd(_, _, _, _) => self.access(s, at, instr),
            Instr::NewSeg(d, a) => self.new_segment(s, at, d, self.read(s, a)),
            Instr::Free(a) => self.free(s, at, self.read(s, a)),
            Instr::Jmp(to) => self.jump(s, u64::from(to)),
            Instr::Branch(test, a, to) => {
                if holds(test, self.read(s, a)) {
                    self.jump(s, u64::from(to))
                } else {
                    self.jump(s, at + 1)
                }
            }
            Instr::Jal(d, to) => {
                self.go(s, u64::from(to), Some(d), at + 1);
                Stepped::Went
            }
            Instr::Jr(a) => self.jump(s, self.read(s, a)),
            Instr::Create(d, a, start) => self.create(s, at, d, start, self.read(s, a)),
            Instr::Quit => self.quit(s),
            Instr::Print(format) => self.print(s, at, format),
            Instr::Trap(_) => Stepped::Trap(TrapKind::Code),
        }
    }

    /// The position of the stream in a slot. None: there is no stream.
    pub(crate) fn position(&self, s: u32) -> Option<u64>
        ensures { result ≡ option_map (λ t. t.at) (stream_in self.now.seats.items s) }
    {
        match self.seats.get(s as usize) {
            Some(Seat::Taken(stream)) => Some(stream.at),
            _ => None,
        }
    }

    /// One step of the stream in a slot, which is not counted.
    fn try_step(&mut self, s: u32) -> Stepped
        ensures step { Steps (code_of self.old) (limits_of self.old) s result (state_of self.old) (state_of self.new) }
        ensures same { RunsSame self.old self.new }
    {
        let Some(at) = self.position(s) else {
            return Stepped::NotReady;
        };
        match instr_at(self.code, at) {
            Some(instr) => self.obey(s, at, instr),
            None => Stepped::Trap(TrapKind::Jump),
        }
    }

    /// One step of the stream in a slot. Only a step that went changes the machine; it is counted, up to 2^64 - 1.
    pub fn step(&mut self, s: u32) -> Stepped
        ensures step { Steps (code_of self.old) (limits_of self.old) s result (state_of self.old) (state_of self.new) }
        ensures count { steps_of self.new ≡ counted result (steps_of self.old) }
        ensures code { code_of self.new ≡ code_of self.old }
        ensures limits { limits_of self.new ≡ limits_of self.old }
    {
        let stepped = self.try_step(s);
        if let Stepped::Went = stepped {
            self.steps = self.steps.saturating_add(1);
        }
        stepped
    }
}

/// The instruction at a position.
pub(crate) fn instr_at(code: &Code, at: u64) -> Option<Instr>
    ensures value { result ≡ slice_get code.now.instrs at }
    ensures next { OnSome result (at + 1 < 2 ^ 64) }
{
    let instrs = code.instrs.as_slice();
    if at >= instrs.len() as u64 {
        return None;
    }
    Some(instrs[at as usize])
}
