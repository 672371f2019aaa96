//! Code in the making.

ghost use Rattle.std.specs.Prelude.{◌≡◌, ◌++◌, ◌∷◌, [], ◌<◌, ◌^◌, length, IsSome, OnOk, OnErr, IfOk};
ghost use Rattle.xc_isa.specs.Targets.{aimed as aimed_of, aimed_at, patched};

use crate::instr::Instr;
use sqlite_items::Items;
use std::alloc::{AllocError, Global};
use std::marker::Model;

/// The most instructions that are emitted.
const LIMIT: usize = u32::MAX as usize;

/// Instructions that are appended one by one, and whose targets are told later.
///
/// Contracts see the list of instructions, shorter than 2^32.
#[derive(Drop)]
pub struct Emit {
    instrs: Items<Instr>,
}

impl Model for Emit {
    ghost use Rattle.std.specs.Prelude.{List, length, ◌<◌, ◌^◌};
    ghost use Rattle.xc_isa.specs.declared.instr.Instr.{Instr};

    ghost Value = { List Instr };

    ghost view = { λ e. e.instrs };

    ghost invariant = { λ e. length e.instrs < 2 ^ 32 };

    ghost inverse = { λ is. record { instrs = is } };
}

/// The instruction with another target. None: it has no target.
fn aimed(instr: Instr, target: u32) -> Option<Instr>
    ensures { result ≡ aimed_of instr target }
{
    match instr {
        Instr::Jmp(_) => Some(Instr::Jmp(target)),
        Instr::Branch(test, a, _) => Some(Instr::Branch(test, a, target)),
        Instr::Jal(d, _) => Some(Instr::Jal(d, target)),
        Instr::Create(d, a, _) => Some(Instr::Create(d, a, target)),
        _ => None,
    }
}

impl Emit {
    /// No instructions.
    pub fn new(alloc: Global) -> Emit
        ensures { result ≡ [] }
    {
        Emit {
            instrs: Items::new(alloc),
        }
    }

    /// How many instructions there are: the position of the next one.
    pub fn position(&self) -> u32
        ensures { result ≡ length self.now }
    {
        self.instrs.len() as u32
    }

    /// Appends an instruction and answers its position. An `Err` says that the host's memory is used up, or that there are
    /// 2^32 - 1 instructions.
    pub fn push(&mut self, instr: Instr) -> Result<u32, AllocError>
        ensures at { IfOk result (λ at. at ≡ length self.old) }
        ensures ok { OnOk result (self.new ≡ self.old ++ instr ∷ []) }
        ensures err { OnErr result (self.new ≡ self.old) }
    {
        if self.instrs.len() >= LIMIT {
            return Err(AllocError);
        }
        let at = self.position();
        self.instrs.push(instr)?;
        Ok(at)
    }

    /// Tells an instruction that has a target another one.
    pub fn patch(&mut self, at: u32, target: u32)
        requires { IsSome (aimed_at self.old at target) }
        ensures { self.new ≡ patched self.old at target }
    {
        let at = at as usize;
        if let Some(instr) = self.instrs.get(at).copied() {
            if let Some(instr) = aimed(instr, target) {
                self.instrs.set(at, instr);
            }
        }
    }

    /// The instructions, in order.
    pub fn finish(self) -> Items<Instr>
        ensures same { result ≡ self }
        ensures short { length result < 2 ^ 32 }
    {
        self.instrs
    }
}
