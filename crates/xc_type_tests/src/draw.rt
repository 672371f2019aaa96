//! Expressions as words: each form behind the first letter of its type, and its parts behind it.

use xc_tree::{BinOp, Expr, ExprKind, Ty, UnOp};
use xc_word::Kind;

fn letter(ty: &Ty) -> &'static str {
    match ty {
        Ty::Void => "v",
        Ty::Int => "i",
        Ty::Uint => "u",
        Ty::Ptr(_) => "p",
        _ => "?",
    }
}

fn access(kind: Kind) -> &'static str {
    match kind {
        Kind::ReadXx => "readxx",
        Kind::ReadFe => "readfe",
        Kind::ReadFf => "readff",
        Kind::WriteXf => "writexf",
        Kind::WriteEf => "writeef",
        Kind::WriteFf => "writeff",
        Kind::Purge => "purge",
        Kind::Add => "add",
    }
}

fn sign(op: BinOp) -> &'static str {
    match op {
        BinOp::Mul => "*",
        BinOp::Div => "/",
        BinOp::Rem => "%",
        BinOp::Add => "+",
        BinOp::Sub => "-",
        BinOp::Shl => "<<",
        BinOp::Shr => ">>",
        BinOp::Lt => "<",
        BinOp::Gt => ">",
        BinOp::Le => "<=",
        BinOp::Ge => ">=",
        BinOp::Eq => "==",
        BinOp::Ne => "!=",
        BinOp::BitAnd => "&",
        BinOp::BitXor => "^",
        BinOp::BitOr => "|",
    }
}

fn prefix(op: UnOp) -> &'static str {
    match op {
        UnOp::Neg => "neg",
        UnOp::Complement => "~",
        UnOp::Not => "!",
        UnOp::Cast => "cast",
    }
}

fn say(out: &mut String, ty: &Ty, form: &str) -> bool {
    write!(out, "{}{} ", letter(ty), form).is_ok()
}

fn count(out: &mut String, ty: &Ty, form: &str, number: u64) -> bool {
    write!(out, "{}{} {} ", letter(ty), form, number).is_ok()
}

/// Draws an expression; false where memory is short.
#[cycle(drawing)]
pub fn draw(out: &mut String, e: &Expr) -> bool {
    match &e.kind {
        ExprKind::Const(word) => count(out, &e.ty, "const", *word),
        ExprKind::Local(x) => count(out, &e.ty, "local", u64::from(*x)),
        ExprKind::Set { local, value } => {
            count(out, &e.ty, "set", u64::from(*local)) && draw(out, value.get())
        }
        ExprKind::Global(g) => count(out, &e.ty, "global", u64::from(*g)),
        ExprKind::Auto(x) => count(out, &e.ty, "auto", u64::from(*x)),
        ExprKind::Index {
            base,
            index,
            bound: Some(bound),
            ..
        } => {
            count(out, &e.ty, "index", u64::from(*bound))
                && draw(out, base.get())
                && draw(out, index.get())
        }
        ExprKind::Index { base, index, .. } => {
            say(out, &e.ty, "index") && draw(out, base.get()) && draw(out, index.get())
        }
        ExprKind::Member { base, off } => {
            count(out, &e.ty, "member", u64::from(*off)) && draw(out, base.get())
        }
        ExprKind::Read { kind, place } => {
            say(out, &e.ty, access(*kind)) && draw(out, place.get())
        }
        ExprKind::Write { kind, place, value } => {
            say(out, &e.ty, access(*kind)) && draw(out, place.get()) && draw(out, value.get())
        }
        ExprKind::FetchAdd { place, value } => {
            say(out, &e.ty, "fetchadd") && draw(out, place.get()) && draw(out, value.get())
        }
        ExprKind::Purge { place } => say(out, &e.ty, "purge") && draw(out, place.get()),
        ExprKind::Update {
            op,
            post,
            place,
            value,
        } => {
            say(out, &e.ty, if *post { "old" } else { "new" })
                && say(out, &e.ty, sign(*op))
                && draw(out, place.get())
                && draw(out, value.get())
        }
        ExprKind::Unary { op, of } => say(out, &e.ty, prefix(*op)) && draw(out, of.get()),
        ExprKind::Binary { op, a, b } => {
            say(out, &e.ty, sign(*op)) && draw(out, a.get()) && draw(out, b.get())
        }
        ExprKind::And(a, b) => say(out, &e.ty, "and") && draw(out, a.get()) && draw(out, b.get()),
        ExprKind::Or(a, b) => say(out, &e.ty, "or") && draw(out, a.get()) && draw(out, b.get()),
        ExprKind::Cond { test, then, other } => {
            say(out, &e.ty, "cond")
                && draw(out, test.get())
                && draw(out, then.get())
                && draw(out, other.get())
        }
        ExprKind::Comma(a, b) => {
            say(out, &e.ty, "comma") && draw(out, a.get()) && draw(out, b.get())
        }
        ExprKind::Call { func, args } => {
            count(out, &e.ty, "call", u64::from(*func)) && draw_all(out, args.as_slice())
        }
        ExprKind::Print { format, args } => {
            count(out, &e.ty, "print", u64::from(*format)) && draw_all(out, args.as_slice())
        }
    }
}

#[cycle(drawing)]
fn draw_all(out: &mut String, all: &[Expr]) -> bool {
    for e in all {
        if !draw(out, e) {
            return false;
        }
    }
    true
}
