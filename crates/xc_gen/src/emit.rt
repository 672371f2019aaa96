//! Instructions of expressions and statements.
//!
//! The value of an expression comes into r16; r17 has the left operand or a pointer; r23 points to the frame, whose cells
//! below `depth` hold values that wait.

ghost use Rattle.std.specs.Prelude.{◌≡◌, ◌+◌, ◌-◌, ◌*◌, ◌<◌, ◌≤◌, ◌^◌, ◌++◌, [], ◌∷◌, IsSome, OnOk, IfOk, length, map};
ghost use Rattle.xc_isa.specs.declared.instr.Instr.TheVariants as instr;
ghost use Rattle.xc_meaning.specs.Terms.{term_of, terms_of, part_of, command_of, commands_of};
ghost use Rattle.xc_gen.specs.Fits.{most_globals, count_of, NamesBelow, AllNamesBelow, NamesIn, AllNamesIn};
ghost use Rattle.xc_gen.specs.Code.{waiting_for as waiting_for_of, operation_code, unary_code, pointer_to, read_code, write_code, flip as flip_of, less, save, load as load_of, apply_code, old_code, as_truth_code, decided_code, choice_code, loads_code, print_code, term_code, terms_code, command_code, commands_code, leave_code, waiting_in, waiting_among, waiting_for_all, enter_code, whole_code};

use crate::first::global_of;
use crate::frame::waiting_for;
use sqlite_items::Items;
use std::alloc::{AllocError, Global};
use xc_isa::{BinaryOp, DivideOp, Emit, Instr, LoadKind, Reg, StoreKind, Test};
use xc_tree::{BinOp, Expr, ExprKind, Stmt, StmtKind, UnOp};
use xc_tree_words::works_on_uint;
use xc_word::Kind;

fn value_register() -> Reg
    ensures { result ≡ 16 }
{
    Reg::new(16)
}

fn left() -> Reg
    ensures { result ≡ 17 }
{
    Reg::new(17)
}

fn frame() -> Reg
    ensures { result ≡ 23 }
{
    Reg::new(23)
}

/// One more instruction.
fn put(emit: &mut Emit, instr: Instr) -> Result<(), AllocError>
    ensures { OnOk result (emit.new ≡ emit.old ++ instr ∷ []) }
{
    let _ = emit.push(instr)?;
    Ok(())
}

/// The value becomes 1 where it is 0, else 0.
fn flip(emit: &mut Emit) -> Result<(), AllocError>
    ensures { OnOk result (emit.new ≡ emit.old ++ flip_of ∷ []) }
{
    put(
        emit,
        Instr::Binary(
            BinaryOp::Seq,
            value_register(),
            value_register(),
            Reg::new(0),
        ),
    )
}

fn put_binary(emit: &mut Emit, op: BinaryOp, a: Reg, b: Reg) -> Result<(), AllocError>
    ensures { OnOk result (emit.new ≡ emit.old ++ instr.Binary op 16 a b ∷ []) }
{
    put(emit, Instr::Binary(op, value_register(), a, b))
}

fn put_less(emit: &mut Emit, unsigned: bool, a: Reg, b: Reg) -> Result<(), AllocError>
    ensures { OnOk result (emit.new ≡ emit.old ++ less unsigned a b ∷ []) }
{
    let op = if unsigned {
        BinaryOp::Sltu
    } else {
        BinaryOp::Slt
    };
    put_binary(emit, op, a, b)
}

/// The left operand and the value become the value of the operator.
fn put_operation(emit: &mut Emit, op: BinOp, unsigned: bool) -> Result<(), AllocError>
    ensures { OnOk result (emit.new ≡ emit.old ++ operation_code op unsigned) }
{
    match op {
        BinOp::Mul => put_binary(emit, BinaryOp::Mul, left(), value_register()),
        BinOp::Div => {
            let op = if unsigned {
                DivideOp::Divu
            } else {
                DivideOp::Div
            };
            put(
                emit,
                Instr::Divide(op, value_register(), left(), value_register()),
            )
        }
        BinOp::Rem => {
            let op = if unsigned {
                DivideOp::Remu
            } else {
                DivideOp::Rem
            };
            put(
                emit,
                Instr::Divide(op, value_register(), left(), value_register()),
            )
        }
        BinOp::Add => put_binary(emit, BinaryOp::Add, left(), value_register()),
        BinOp::Sub => put_binary(emit, BinaryOp::Sub, left(), value_register()),
        BinOp::Shl => put_binary(emit, BinaryOp::Shl, left(), value_register()),
        BinOp::Shr => {
            let op = if unsigned {
                BinaryOp::Shr
            } else {
                BinaryOp::Sar
            };
            put_binary(emit, op, left(), value_register())
        }
        BinOp::Lt => put_less(emit, unsigned, left(), value_register()),
        BinOp::Gt => put_less(emit, unsigned, value_register(), left()),
        BinOp::Le => {
            put_less(emit, unsigned, value_register(), left())?;
            flip(emit)
        }
        BinOp::Ge => {
            put_less(emit, unsigned, left(), value_register())?;
            flip(emit)
        }
        BinOp::Eq => put_binary(emit, BinaryOp::Seq, left(), value_register()),
        BinOp::Ne => {
            put_binary(emit, BinaryOp::Seq, left(), value_register())?;
            flip(emit)
        }
        BinOp::BitAnd => put_binary(emit, BinaryOp::And, left(), value_register()),
        BinOp::BitXor => put_binary(emit, BinaryOp::Xor, left(), value_register()),
        BinOp::BitOr => put_binary(emit, BinaryOp::Or, left(), value_register()),
    }
}

fn put_unary(emit: &mut Emit, op: UnOp) -> Result<(), AllocError>
    ensures { OnOk result (emit.new ≡ emit.old ++ unary_code op) }
{
    match op {
        UnOp::Neg => put_binary(emit, BinaryOp::Sub, Reg::new(0), value_register()),
        UnOp::Complement => {
            put(emit, Instr::Li(left(), u64::MAX))?;
            put_binary(emit, BinaryOp::Sub, left(), value_register())
        }
        UnOp::Not => flip(emit),
        UnOp::Cast => Ok(()),
    }
}

fn pointer(global: u32) -> u64
    requires { global < most_globals }
    ensures { result ≡ pointer_to global }
{
    (u64::from(global) + 1) << 32
}

fn put_read(emit: &mut Emit, global: u32) -> Result<(), AllocError>
    requires { global < most_globals }
    ensures { OnOk result (emit.new ≡ emit.old ++ read_code global) }
{
    put(emit, Instr::Li(value_register(), pointer(global)))?;
    put(
        emit,
        Instr::Load(LoadKind::Ld, value_register(), value_register(), 0),
    )
}

fn put_write(emit: &mut Emit, global: u32) -> Result<(), AllocError>
    requires { global < most_globals }
    ensures { OnOk result (emit.new ≡ emit.old ++ write_code global) }
{
    put(emit, Instr::Li(left(), pointer(global)))?;
    put(
        emit,
        Instr::Store(StoreKind::St, value_register(), left(), 0),
    )
}

/// The value waits in a cell of the frame.
fn put_save(emit: &mut Emit, depth: u32) -> Result<(), AllocError>
    ensures { OnOk result (emit.new ≡ emit.old ++ save depth ∷ []) }
{
    put(
        emit,
        Instr::Store(StoreKind::St, value_register(), frame(), depth),
    )
}

fn put_load(emit: &mut Emit, register: Reg, depth: u32) -> Result<(), AllocError>
    ensures { OnOk result (emit.new ≡ emit.old ++ load_of register depth ∷ []) }
{
    put(emit, Instr::Load(LoadKind::Ld, register, frame(), depth))
}

fn put_apply(emit: &mut Emit, op: BinOp, unsigned: bool, depth: u32) -> Result<(), AllocError>
    ensures { OnOk result (emit.new ≡ emit.old ++ apply_code op unsigned depth) }
{
    put_load(emit, left(), depth)?;
    put_operation(emit, op, unsigned)
}

fn put_old(emit: &mut Emit, post: bool, depth: u32) -> Result<(), AllocError>
    ensures { OnOk result (emit.new ≡ emit.old ++ old_code post depth) }
{
    if post {
        put_load(emit, value_register(), depth)
    } else {
        Ok(())
    }
}

fn put_as_truth(emit: &mut Emit) -> Result<(), AllocError>
    ensures { OnOk result (emit.new ≡ emit.old ++ as_truth_code) }
{
    flip(emit)?;
    flip(emit)
}

/// The registers from r24 on get the values that wait.
fn put_loads(emit: &mut Emit, args: &[Expr], depth: u32) -> Result<(), AllocError>
    requires few { count_of (terms_of (map part_of args.now)) ≤ 8 }
    requires room { depth + count_of (terms_of (map part_of args.now)) < 2 ^ 32 }
    ensures { OnOk result (emit.new ≡ emit.old ++ loads_code (terms_of (map part_of args.now)) 24 depth) }
{
    let mut register = 24u8;
    let mut cell = depth;
    for _arg in args {
        put_load(emit, Reg::new(register), cell)?;
        register += 1;
        cell += 1;
    }
    Ok(())
}

fn put_print(emit: &mut Emit, format: u32) -> Result<(), AllocError>
    ensures { OnOk result (emit.new ≡ emit.old ++ print_code format) }
{
    put(emit, Instr::Print(format))?;
    put(emit, Instr::Li(value_register(), 0))
}

/// An expression.
#[cycle(term)]
#[tactic(auto, using(crate::proofs::Emitting::emit_rules))]
fn put_term(emit: &mut Emit, e: &Expr, depth: u32) -> Result<(), AllocError>
    requires names { NamesBelow most_globals (term_of e.now) }
    requires room { depth + waiting_in (term_of e.now) < 2 ^ 32 }
    ensures { OnOk result (emit.new ≡ emit.old ++ term_code (term_of e.now) depth (length emit.old)) }
{
    match &e.kind {
        ExprKind::Const(number) => put(emit, Instr::Li(value_register(), *number)),
        ExprKind::Read {
            kind: Kind::ReadXx,
            place,
        } => match global_of(place.get()) {
            Some(global) => put_read(emit, global),
            None => unreachable!(),
        },
        ExprKind::Write {
            kind: Kind::WriteXf,
            place,
            value,
        } => match global_of(place.get()) {
            Some(global) => {
                put_term(emit, value.get(), depth)?;
                put_write(emit, global)
            }
            None => unreachable!(),
        },
        ExprKind::Update {
            op,
            post,
            place,
            value,
        } => match global_of(place.get()) {
            Some(global) => {
                let unsigned = works_on_uint(*op, &e.ty, &value.get().ty);
                put_read(emit, global)?;
                put_save(emit, depth)?;
                put_term(emit, value.get(), depth + 1)?;
                put_apply(emit, *op, unsigned, depth)?;
                put_write(emit, global)?;
                put_old(emit, *post, depth)
            }
            None => unreachable!(),
        },
        ExprKind::Unary { op, of } => {
            put_term(emit, of.get(), depth)?;
            put_unary(emit, *op)
        }
        ExprKind::Binary { op, a, b } => {
            let unsigned = works_on_uint(*op, &a.get().ty, &b.get().ty);
            put_term(emit, a.get(), depth)?;
            put_save(emit, depth)?;
            put_term(emit, b.get(), depth + 1)?;
            put_apply(emit, *op, unsigned, depth)
        }
        ExprKind::And(a, b) => {
            put_term(emit, a.get(), depth)?;
            let decides = emit.push(Instr::Branch(Test::Zero, value_register(), 0))?;
            put_term(emit, b.get(), depth)?;
            let end = emit.position();
            emit.patch(decides, end);
            put_as_truth(emit)
        }
        ExprKind::Or(a, b) => {
            put_term(emit, a.get(), depth)?;
            let decides = emit.push(Instr::Branch(Test::NotZero, value_register(), 0))?;
            put_term(emit, b.get(), depth)?;
            let end = emit.position();
            emit.patch(decides, end);
            put_as_truth(emit)
        }
        ExprKind::Cond { test, then, other } => {
            put_term(emit, test.get(), depth)?;
            let skips = emit.push(Instr::Branch(Test::Zero, value_register(), 0))?;
            put_term(emit, then.get(), depth)?;
            let leaves = emit.push(Instr::Jmp(0))?;
            let second = emit.position();
            emit.patch(skips, second);
            put_term(emit, other.get(), depth)?;
            let end = emit.position();
            emit.patch(leaves, end);
            Ok(())
        }
        ExprKind::Comma(a, b) => {
            put_term(emit, a.get(), depth)?;
            put_term(emit, b.get(), depth)
        }
        ExprKind::Print { format, args } => {
            put_terms(emit, args.as_slice(), depth)?;
            put_loads(emit, args.as_slice(), depth)?;
            put_print(emit, *format)
        }
        _ => unreachable!(),
    }
}

/// The values of the arguments wait in the cells from `depth` on.
#[cycle(term)]
#[tactic(auto, using(crate::proofs::Emitting::emit_rules))]
fn put_terms(emit: &mut Emit, args: &[Expr], depth: u32) -> Result<(), AllocError>
    requires names { AllNamesBelow most_globals (terms_of (map part_of args.now)) }
    requires room { depth + waiting_among (terms_of (map part_of args.now)) 0 < 2 ^ 32 }
    ensures { OnOk result (emit.new ≡ emit.old ++ terms_code (terms_of (map part_of args.now)) depth (length emit.old)) }
{
    let mut before = 0;
    for arg in args {
        put_term(emit, arg, depth + before)?;
        put_save(emit, depth + before)?;
        before += 1;
    }
    Ok(())
}

/// The frame is freed, and the stream ends.
fn put_leave(emit: &mut Emit) -> Result<(), AllocError>
    ensures { OnOk result (emit.new ≡ emit.old ++ leave_code) }
{
    put(emit, Instr::Free(frame()))?;
    put(emit, Instr::Quit)
}

/// A statement.
#[cycle(command)]
#[tactic(auto, using(crate::proofs::Emitting::emit_rules))]
fn put_command(emit: &mut Emit, stmt: &Stmt) -> Result<(), AllocError>
    requires names { NamesIn most_globals (command_of stmt.now) }
    requires room { waiting_for_of (command_of stmt.now) < 2 ^ 32 }
    ensures { OnOk result (emit.new ≡ emit.old ++ command_code (command_of stmt.now) (length emit.old)) }
{
    match &stmt.kind {
        StmtKind::Empty => Ok(()),
        StmtKind::Eval(e) => put_term(emit, e, 0),
        StmtKind::Block(all) => put_commands(emit, all.as_slice()),
        StmtKind::Return(Some(e)) => {
            put_term(emit, e, 0)?;
            put_leave(emit)
        }
        _ => unreachable!(),
    }
}

#[cycle(command)]
#[tactic(auto, using(crate::proofs::Emitting::emit_rules))]
fn put_commands(emit: &mut Emit, all: &[Stmt]) -> Result<(), AllocError>
    requires names { AllNamesIn most_globals (commands_of (map command_of all.now)) }
    requires room { waiting_for_all (commands_of (map command_of all.now)) < 2 ^ 32 }
    ensures { OnOk result (emit.new ≡ emit.old ++ commands_code (commands_of (map command_of all.now)) (length emit.old)) }
{
    for stmt in all {
        put_command(emit, stmt)?;
    }
    Ok(())
}

/// The instructions of a body, with a frame of its own.
pub(crate) fn emit_whole(alloc: Global, body: &Stmt) -> Result<Items<Instr>, AllocError>
    requires names { NamesIn most_globals (command_of body.now) }
    requires room { waiting_for_of (command_of body.now) + 1 < 2 ^ 32 }
    ensures { IfOk result (λ code. code ≡ whole_code (command_of body.now)) }
{
    let cells = waiting_for(body) + 1;
    let mut emit = Emit::new(alloc);
    put(&mut emit, Instr::Li(left(), u64::from(cells)))?;
    put(&mut emit, Instr::NewSeg(frame(), left()))?;
    put_command(&mut emit, body)?;
    put_leave(&mut emit)?;
    Ok(emit.finish())
}
