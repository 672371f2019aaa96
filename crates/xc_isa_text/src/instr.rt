//! Instructions as lines.

ghost use Rattle.std.specs.Prelude.{◌≡◌, ◌++◌, ◌∷◌, [], OnOk};
ghost use Rattle.xc_isa_text.specs.Operands.{words_in};
ghost use Rattle.xc_isa_text.specs.InnerOperands.{tail_of};
ghost use Rattle.xc_isa_text.specs.Instructions.{op_of, slots_of, numbers_of, instr_line, IsInstr};
ghost use Rattle.xc_isa_text.specs.InnerInstructions.{instr_from, instr_in};
ghost use Rattle.xc_text_lines.specs.Lines.{words_of};

use crate::op::Op;
use crate::operand::Signed;
use crate::words::{Words, four, none, one, put_four, put_one, put_three, put_two, three, two};
use std::alloc::AllocError;
use xc_isa::Instr;
use xc_text_lines::end_line;

/// The instruction that the words after the mnemonic spell.
fn instr_with(op: Op, words: &mut Words) -> Option<Instr>
    ensures { result ≡ instr_from op words.old }
{
    match op {
        Op::Li => {
            let (d, n) = two(words)?;
            let Signed(n) = n;
            Some(Instr::Li(d, n))
        }
        Op::Addi => {
            let (d, a, n) = three(words)?;
            let Signed(n) = n;
            Some(Instr::Addi(d, a, n))
        }
        Op::Binary(op) => {
            let (d, a, b) = three(words)?;
            Some(Instr::Binary(op, d, a, b))
        }
        Op::Divide(op) => {
            let (d, a, b) = three(words)?;
            Some(Instr::Divide(op, d, a, b))
        }
        Op::Padd => {
            let (d, a, b, n) = four(words)?;
            Some(Instr::Padd(d, a, b, n))
        }
        Op::Psub => {
            let (d, a, b) = three(words)?;
            Some(Instr::Psub(d, a, b))
        }
        Op::Bound => {
            let (a, n) = two(words)?;
            Some(Instr::Bound(a, n))
        }
        Op::Load(kind) => {
            let (d, a, n) = three(words)?;
            Some(Instr::Load(kind, d, a, n))
        }
        Op::Store(kind) => {
            let (b, a, n) = three(words)?;
            Some(Instr::Store(kind, b, a, n))
        }
        Op::Purge => {
            let (a, n) = two(words)?;
            Some(Instr::Purge(a, n))
        }
        Op::Fadd => {
            let (d, a, n, b) = four(words)?;
            Some(Instr::Fadd(d, a, n, b))
        }
        Op::NewSeg => {
            let (d, a) = two(words)?;
            Some(Instr::NewSeg(d, a))
        }
        Op::Free => Some(Instr::Free(one(words)?)),
        Op::Jmp => Some(Instr::Jmp(one(words)?)),
        Op::Branch(test) => {
            let (a, n) = two(words)?;
            Some(Instr::Branch(test, a, n))
        }
        Op::Jal => {
            let (d, n) = two(words)?;
            Some(Instr::Jal(d, n))
        }
        Op::Jr => Some(Instr::Jr(one(words)?)),
        Op::Create => {
            let (d, a, n) = three(words)?;
            Some(Instr::Create(d, a, n))
        }
        Op::Quit => {
            none(words)?;
            Some(Instr::Quit)
        }
        Op::Print => Some(Instr::Print(one(words)?)),
        Op::Trap => Some(Instr::Trap(one(words)?)),
    }
}

/// The instruction that a line spells.
pub(crate) fn instr_of(line: &[u8]) -> Option<Instr>
    ensures { result ≡ instr_in (words_of line.now) }
{
    let mut words = Words::new(line);
    let op = Op::named(words.next()?)?;
    instr_with(op, &mut words)
}

/// What an instruction does.
fn op_in(instr: &Instr) -> Op
    ensures { result ≡ op_of instr.now }
{
    match *instr {
        Instr::Li(..) => Op::Li,
        Instr::Addi(..) => Op::Addi,
        Instr::Binary(op, ..) => Op::Binary(op),
        Instr::Divide(op, ..) => Op::Divide(op),
        Instr::Padd(..) => Op::Padd,
        Instr::Psub(..) => Op::Psub,
        Instr::Bound(..) => Op::Bound,
        Instr::Load(kind, ..) => Op::Load(kind),
        Instr::Store(kind, ..) => Op::Store(kind),
        Instr::Purge(..) => Op::Purge,
        Instr::Fadd(..) => Op::Fadd,
        Instr::NewSeg(..) => Op::NewSeg,
        Instr::Free(_) => Op::Free,
        Instr::Jmp(_) => Op::Jmp,
        Instr::Branch(test, ..) => Op::Branch(test),
        Instr::Jal(..) => Op::Jal,
        Instr::Jr(_) => Op::Jr,
        Instr::Create(..) => Op::Create,
        Instr::Quit => Op::Quit,
        Instr::Print(_) => Op::Print,
        Instr::Trap(_) => Op::Trap,
    }
}

/// Ends the line of an instruction, behind the mnemonic.
fn put_operands(out: &mut Vec<u8>, instr: &Instr) -> Result<(), AllocError>
    ensures ok { OnOk result (out.new.items
        ≡ out.old.items ++ tail_of (words_in (slots_of (op_of instr.now)) (numbers_of instr.now))) }
    ensures is_instr { OnOk result (IsInstr instr.now) }
{
    match *instr {
        Instr::Li(d, n) => put_two(out, d, Signed(n)),
        Instr::Addi(d, a, n) => put_three(out, d, a, Signed(n)),
        Instr::Binary(_, d, a, b) | Instr::Divide(_, d, a, b) | Instr::Psub(d, a, b) => {
            put_three(out, d, a, b)
        }
        Instr::Padd(d, a, b, n) => put_four(out, d, a, b, n),
        Instr::Fadd(d, a, n, b) => put_four(out, d, a, n, b),
        Instr::Load(_, d, a, n) | Instr::Store(_, d, a, n) | Instr::Create(d, a, n) => {
            put_three(out, d, a, n)
        }
        Instr::Bound(a, n) | Instr::Purge(a, n) | Instr::Branch(_, a, n) | Instr::Jal(a, n) =>
            put_two(out, a, n),
        Instr::NewSeg(d, a) => put_two(out, d, a),
        Instr::Free(a) | Instr::Jr(a) => put_one(out, a),
        Instr::Jmp(n) | Instr::Print(n) | Instr::Trap(n) => put_one(out, n),
        Instr::Quit => end_line(out),
    }
}

/// Writes the line of an instruction at the end.
pub(crate) fn push_instr(out: &mut Vec<u8>, instr: &Instr) -> Result<(), AllocError>
    ensures ok { OnOk result (out.new.items ≡ out.old.items ++ (instr_line instr.now ++ 10 ∷ [])) }
    ensures is_instr { OnOk result (IsInstr instr.now) }
{
    let op = op_in(instr);
    out.extend_from_slice(op.name())?;
    put_operands(out, instr)
}
