//! Constants.

ghost use Rattle.std.specs.Prelude.{◌≡◌};
ghost use Rattle.xc_tree.specs.Types.{is_number};
ghost use Rattle.xc_tree_words.specs.Constants.{is_int, is_built, combined, conjunction, disjunction, chosen, value_of, constant_of};

use crate::operators::{binary, unary, works_on_uint};
use xc_tree::{BinOp, Expr, ExprKind, Ty};

/// Whether a type is Int.
pub fn is_int(ty: &Ty) -> bool
    ensures { result ≡ is_int ty.now }
{
    match ty {
        Ty::Int => true,
        _ => false,
    }
}

fn is_number(ty: &Ty) -> bool
    ensures { result ≡ is_number ty.now }
{
    match ty {
        Ty::Int | Ty::Uint => true,
        _ => false,
    }
}

fn combined(op: BinOp, unsigned: bool, a: Option<u64>, b: Option<u64>) -> Option<u64>
    ensures { result ≡ combined op unsigned a b }
{
    match (a, b) {
        (Some(a), Some(b)) => binary(op, unsigned, a, b),
        _ => None,
    }
}

fn conjunction(a: Option<u64>, b: Option<u64>) -> Option<u64>
    ensures { result ≡ conjunction a b }
{
    match a {
        None => None,
        Some(0) => Some(0),
        Some(_) => b.map(|n| u64::from(n != 0)),
    }
}

fn disjunction(a: Option<u64>, b: Option<u64>) -> Option<u64>
    ensures { result ≡ disjunction a b }
{
    match a {
        None => None,
        Some(0) => b.map(|n| u64::from(n != 0)),
        Some(_) => Some(1),
    }
}

fn chosen(test: Option<u64>, then: Option<u64>, other: Option<u64>) -> Option<u64>
    ensures { result ≡ chosen test then other }
{
    match test {
        None => None,
        Some(0) => other,
        Some(_) => then,
    }
}

fn is_built(e: &Expr) -> bool
    ensures { result ≡ is_built e.now }
{
    if !is_number(&e.ty) {
        return false;
    }
    match &e.kind {
        ExprKind::Const(_) => true,
        ExprKind::Unary { op: _, of } => is_built(of.get()),
        ExprKind::Binary { op: _, a, b } => is_built(a.get()) && is_built(b.get()),
        ExprKind::And(a, b) => is_built(a.get()) && is_built(b.get()),
        ExprKind::Or(a, b) => is_built(a.get()) && is_built(b.get()),
        ExprKind::Cond { test, then, other } => {
            is_built(test.get()) && is_built(then.get()) && is_built(other.get())
        }
        _ => false,
    }
}

fn value_of(e: &Expr) -> Option<u64>
    ensures { result ≡ value_of e.now }
{
    match &e.kind {
        ExprKind::Const(n) => Some(*n),
        ExprKind::Unary { op, of } => match value_of(of.get()) {
            None => None,
            Some(n) => Some(unary(*op, n)),
        },
        ExprKind::Binary { op, a, b } => {
            let unsigned = works_on_uint(*op, &a.get().ty, &b.get().ty);
            combined(*op, unsigned, value_of(a.get()), value_of(b.get()))
        }
        ExprKind::And(a, b) => conjunction(value_of(a.get()), value_of(b.get())),
        ExprKind::Or(a, b) => disjunction(value_of(a.get()), value_of(b.get())),
        ExprKind::Cond { test, then, other } => {
            chosen(
                value_of(test.get()),
                value_of(then.get()),
                value_of(other.get()),
            )
        }
        _ => None,
    }
}

/// The word of a constant: numbers, unary and binary operators, `?:` and casts. It is none for what is no constant, and
/// where a division by 0 is evaluated.
pub fn constant(e: &Expr) -> Option<u64>
    ensures { result ≡ constant_of e.now }
{
    if is_built(e) { value_of(e) } else { None }
}
