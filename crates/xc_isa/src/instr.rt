//! Registers and instructions.

ghost use Rattle.std.specs.Prelude.{◌≡◌, ◌<◌};

use std::marker::Model;

/// A register, r0 to r31. Register r0 reads 0.
#[derive(Clone, Copy)]
pub struct Reg {
    number: u8,
}

impl Model for Reg {
    ghost use Rattle.std.specs.Prelude.{ℕ, ◌<◌};

    ghost Value = { ℕ };

    ghost view = { λ r. r.number };

    ghost invariant = { λ r. r.number < 32 };

    ghost inverse = { λ n. record { number = n } };
}

impl Reg {
    pub fn new(number: u8) -> Reg
        requires { number < 32 }
        ensures { result ≡ number }
    {
        Reg { number }
    }

    pub fn number(self) -> u8
        ensures value { result ≡ self }
        ensures in_range { result < 32 }
    {
        self.number
    }
}

/// An operation on two registers. It never traps.
#[derive(Clone, Copy)]
pub enum BinaryOp {
    /// The sum, modulo 2^64.
    Add,
    /// The difference, modulo 2^64.
    Sub,
    /// The product, modulo 2^64.
    Mul,
    /// Bit by bit.
    And,
    /// Bit by bit.
    Or,
    /// Bit by bit, exclusive.
    Xor,
    /// To the left by the second modulo 64.
    Shl,
    /// To the right by the second modulo 64, zeros coming in.
    Shr,
    /// To the right by the second modulo 64, copies of the sign coming in.
    Sar,
    /// 1 where the first is less as a signed number, else 0.
    Slt,
    /// 1 where the first is less as an unsigned number, else 0.
    Sltu,
    /// 1 where both are the same, else 0.
    Seq,
}

/// A division of two registers. It traps where the divisor is 0.
#[derive(Clone, Copy)]
pub enum DivideOp {
    /// The signed quotient, towards 0; the least number over -1 is itself.
    Div,
    /// The unsigned quotient.
    Divu,
    /// The signed remainder, with the sign of the dividend; that of the least number over -1 is 0.
    Rem,
    /// The unsigned remainder.
    Remu,
}

/// How a cell is read.
#[derive(Clone, Copy)]
pub enum LoadKind {
    /// In whatever state it is.
    Ld,
    /// Once it is full, leaving it empty.
    Ldfe,
    /// Once it is full.
    Ldff,
}

/// How a cell is written; it is left full.
#[derive(Clone, Copy)]
pub enum StoreKind {
    /// In whatever state it is.
    St,
    /// Once it is empty.
    Stef,
    /// Once it is full.
    Stff,
}

/// Which word makes a branch.
#[derive(Clone, Copy)]
pub enum Test {
    Zero,
    NotZero,
}

/// An instruction. Where it names a pointer and a number, it is about the cell at the pointer with the number added to its offset.
#[derive(Clone, Copy)]
pub enum Instr {
    /// `li`: the register gets the word.
    Li(Reg, u64),
    /// `addi`: the first register gets the sum of the second and the word, modulo 2^64.
    Addi(Reg, Reg, u64),
    /// `add` to `seq`: the first register gets what the operation makes of the other two.
    Binary(BinaryOp, Reg, Reg, Reg),
    /// `div` to `remu`: the first register gets what the division makes of the other two.
    Divide(DivideOp, Reg, Reg, Reg),
    /// `padd`: the first register gets the pointer in the second, moved on by the third, signed, times the number.
    Padd(Reg, Reg, Reg, u32),
    /// `psub`: the first register gets how far the pointer in the second is behind the one in the third, signed.
    Psub(Reg, Reg, Reg),
    /// `bound`: a trap where the register, unsigned, is not below the number.
    Bound(Reg, u32),
    /// `ld` to `ldff`: the first register gets the cell at the pointer in the second and the number.
    Load(LoadKind, Reg, Reg, u32),
    /// `st` to `stff`: the first register is written to the cell at the pointer in the second and the number.
    Store(StoreKind, Reg, Reg, u32),
    /// `purge`: the cell at the pointer and the number is left empty with the value 0.
    Purge(Reg, u32),
    /// `fadd`: once the cell at the pointer in the second register and the number is full, the first register gets its value,
    /// and the third is added to it.
    Fadd(Reg, Reg, u32, Reg),
    /// `newseg`: the first register gets a pointer to a new segment of as many cells as the second says.
    NewSeg(Reg, Reg),
    /// `free`: the segment that the register points to is freed.
    Free(Reg),
    /// `jmp`: to the position.
    Jmp(u32),
    /// `bz` and `bnz`: to the position, where the test holds of the register.
    Branch(Test, Reg, u32),
    /// `jal`: to the position; the register gets the next one.
    Jal(Reg, u32),
    /// `jr`: to the position in the register.
    Jr(Reg),
    /// `create`: a stream starts at the position with the second register as its r1, if a slot is free; the first register
    /// gets 1 then, else 0.
    Create(Reg, Reg, u32),
    /// `quit`: the stream ends.
    Quit,
    /// `print`: the format prints r24 and the registers that follow.
    Print(u32),
    /// `trap`: a trap.
    Trap(u32),
}

/// Why a step traps.
#[derive(Clone, Copy)]
pub enum TrapKind {
    /// A divisor is 0.
    Divide,
    /// An index is not below its bound.
    Index,
    /// A pointer's offset leaves 0 to 2^32 - 1.
    Range,
    /// Pointers to different segments are subtracted.
    Objects,
    /// No live segment has the place.
    Place,
    /// A segment has no cell.
    Size,
    /// There is no such format.
    Format,
    /// The code itself traps.
    Code,
    /// The position is outside the code.
    Jump,
}
