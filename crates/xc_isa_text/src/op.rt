//! Mnemonics.

ghost use Rattle.std.specs.Prelude.{◌≡◌};
ghost use Rattle.xc_isa_text.specs.Instructions.{binary_name, divide_name, load_name, store_name, branch_name, name_of};
ghost use Rattle.xc_isa_text.specs.InnerInstructions.{op_named};

use xc_isa::{BinaryOp, DivideOp, LoadKind, StoreKind, Test};

/// What an instruction does, without its registers and numbers.
#[derive(Clone, Copy)]
pub(crate) enum Op {
    Li,
    Addi,
    Binary(BinaryOp),
    Divide(DivideOp),
    Padd,
    Psub,
    Bound,
    Load(LoadKind),
    Store(StoreKind),
    Purge,
    Fadd,
    NewSeg,
    Free,
    Jmp,
    Branch(Test),
    Jal,
    Jr,
    Create,
    Quit,
    Print,
    Trap,
}

const OPS: [Op; 40] = [
    Op::Li,
    Op::Addi,
    Op::Binary(BinaryOp::Add),
    Op::Binary(BinaryOp::Sub),
    Op::Binary(BinaryOp::Mul),
    Op::Binary(BinaryOp::And),
    Op::Binary(BinaryOp::Or),
    Op::Binary(BinaryOp::Xor),
    Op::Binary(BinaryOp::Shl),
    Op::Binary(BinaryOp::Shr),
    Op::Binary(BinaryOp::Sar),
    Op::Binary(BinaryOp::Slt),
    Op::Binary(BinaryOp::Sltu),
    Op::Binary(BinaryOp::Seq),
    Op::Divide(DivideOp::Div),
    Op::Divide(DivideOp::Divu),
    Op::Divide(DivideOp::Rem),
    Op::Divide(DivideOp::Remu),
    Op::Padd,
    Op::Psub,
    Op::Bound,
    Op::Load(LoadKind::Ld),
    Op::Load(LoadKind::Ldfe),
    Op::Load(LoadKind::Ldff),
    Op::Store(StoreKind::St),
    Op::Store(StoreKind::Stef),
    Op::Store(StoreKind::Stff),
    Op::Purge,
    Op::Fadd,
    Op::NewSeg,
    Op::Free,
    Op::Jmp,
    Op::Branch(Test::Zero),
    Op::Branch(Test::NotZero),
    Op::Jal,
    Op::Jr,
    Op::Create,
    Op::Quit,
    Op::Print,
    Op::Trap,
];

fn binary(op: BinaryOp) -> &'static [u8]
    ensures { result.now ≡ binary_name op }
{
    match op {
        BinaryOp::Add => b"add",
        BinaryOp::Sub => b"sub",
        BinaryOp::Mul => b"mul",
        BinaryOp::And => b"and",
        BinaryOp::Or => b"or",
        BinaryOp::Xor => b"xor",
        BinaryOp::Shl => b"shl",
        BinaryOp::Shr => b"shr",
        BinaryOp::Sar => b"sar",
        BinaryOp::Slt => b"slt",
        BinaryOp::Sltu => b"sltu",
        BinaryOp::Seq => b"seq",
    }
}

fn divide(op: DivideOp) -> &'static [u8]
    ensures { result.now ≡ divide_name op }
{
    match op {
        DivideOp::Div => b"div",
        DivideOp::Divu => b"divu",
        DivideOp::Rem => b"rem",
        DivideOp::Remu => b"remu",
    }
}

fn load(kind: LoadKind) -> &'static [u8]
    ensures { result.now ≡ load_name kind }
{
    match kind {
        LoadKind::Ld => b"ld",
        LoadKind::Ldfe => b"ldfe",
        LoadKind::Ldff => b"ldff",
    }
}

fn store(kind: StoreKind) -> &'static [u8]
    ensures { result.now ≡ store_name kind }
{
    match kind {
        StoreKind::St => b"st",
        StoreKind::Stef => b"stef",
        StoreKind::Stff => b"stff",
    }
}

fn branch(test: Test) -> &'static [u8]
    ensures { result.now ≡ branch_name test }
{
    match test {
        Test::Zero => b"bz",
        Test::NotZero => b"bnz",
    }
}

impl Op {
    /// The mnemonic.
    pub(crate) fn name(self) -> &'static [u8]
        ensures { result.now ≡ name_of self }
    {
        match self {
            Op::Li => b"li",
            Op::Addi => b"addi",
            Op::Binary(op) => binary(op),
            Op::Divide(op) => divide(op),
            Op::Padd => b"padd",
            Op::Psub => b"psub",
            Op::Bound => b"bound",
            Op::Load(kind) => load(kind),
            Op::Store(kind) => store(kind),
            Op::Purge => b"purge",
            Op::Fadd => b"fadd",
            Op::NewSeg => b"newseg",
            Op::Free => b"free",
            Op::Jmp => b"jmp",
            Op::Branch(test) => branch(test),
            Op::Jal => b"jal",
            Op::Jr => b"jr",
            Op::Create => b"create",
            Op::Quit => b"quit",
            Op::Print => b"print",
            Op::Trap => b"trap",
        }
    }

    /// The operation that a word names.
    pub(crate) fn named(word: &[u8]) -> Option<Op>
        ensures { result ≡ op_named word.now }
    {
        OPS.iter().copied().find(|op| op.name() == word)
    }
}
