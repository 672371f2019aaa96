//! Copies of expressions.

ghost use Rattle.std.specs.Prelude.{◌≡◌, IfOk};

use crate::copy::ty::copy_ty;
use crate::{Expr, ExprKind};
use sqlite_items::{Boxed, Items};
use std::alloc::{AllocError, Global};
use xc_hold::{both, kept};

/// A copy of an expression.
#[cycle(copy_expression)]
pub fn copy_expr(alloc: Global, e: &Expr) -> Result<Expr, AllocError>
    ensures { IfOk result (λ r. r ≡ e.now) }
{
    let (ty, kind) = both(copy_ty(alloc, &e.ty), copy_kind(alloc, &e.kind))?;
    Ok(Expr {
        ty,
        span: e.span,
        kind,
    })
}

#[cycle(copy_expression)]
fn copy_boxed(alloc: Global, e: &Boxed<Expr>) -> Result<Boxed<Expr>, AllocError>
    ensures { IfOk result (λ r. r ≡ e.now) }
{
    Boxed::new(alloc, copy_expr(alloc, e.get())?)
}

#[cycle(copy_expression)]
fn copy_all(alloc: Global, list: &Items<Expr>) -> Result<Items<Expr>, AllocError>
    ensures { IfOk result (λ r. r ≡ list.now) }
{
    let mut all = Items::new(alloc);
    for e in list.as_slice() {
        all.push(copy_expr(alloc, e)?)?;
    }
    Ok(all)
}

#[cycle(copy_expression)]
fn copy_kind(alloc: Global, kind: &ExprKind) -> Result<ExprKind, AllocError>
    ensures { IfOk result (λ r. r ≡ kind.now) }
{
    match kind {
        ExprKind::Const(n) => Ok(ExprKind::Const(*n)),
        ExprKind::Local(x) => Ok(ExprKind::Local(*x)),
        ExprKind::Set { local, value } => Ok(ExprKind::Set {
            local: *local,
            value: copy_boxed(alloc, value)?,
        }),
        ExprKind::Global(g) => Ok(ExprKind::Global(*g)),
        ExprKind::Auto(x) => Ok(ExprKind::Auto(*x)),
        ExprKind::Index {
            base,
            index,
            size,
            bound,
        } => {
            let (base, index) = both(copy_boxed(alloc, base), copy_boxed(alloc, index))?;
            Ok(ExprKind::Index {
                base,
                index,
                size: *size,
                bound: *bound,
            })
        }
        ExprKind::Member { base, off } => Ok(ExprKind::Member {
            base: copy_boxed(alloc, base)?,
            off: *off,
        }),
        ExprKind::Read { kind, place } => Ok(ExprKind::Read {
            kind: *kind,
            place: copy_boxed(alloc, place)?,
        }),
        ExprKind::Write { kind, place, value } => {
            let (place, value) = both(copy_boxed(alloc, place), copy_boxed(alloc, value))?;
            Ok(ExprKind::Write {
                kind: *kind,
                place,
                value,
            })
        }
        ExprKind::FetchAdd { place, value } => {
            let (place, value) = both(copy_boxed(alloc, place), copy_boxed(alloc, value))?;
            Ok(ExprKind::FetchAdd { place, value })
        }
        ExprKind::Purge { place } => Ok(ExprKind::Purge {
            place: copy_boxed(alloc, place)?,
        }),
        ExprKind::Update {
            op,
            post,
            place,
            value,
        } => {
            let (place, value) = both(copy_boxed(alloc, place), copy_boxed(alloc, value))?;
            Ok(ExprKind::Update {
                op: *op,
                post: *post,
                place,
                value,
            })
        }
        ExprKind::Unary { op, of } => Ok(ExprKind::Unary {
            op: *op,
            of: copy_boxed(alloc, of)?,
        }),
        ExprKind::Binary { op, a, b } => {
            let (a, b) = both(copy_boxed(alloc, a), copy_boxed(alloc, b))?;
            Ok(ExprKind::Binary { op: *op, a, b })
        }
        ExprKind::And(a, b) => {
            let (a, b) = both(copy_boxed(alloc, a), copy_boxed(alloc, b))?;
            Ok(ExprKind::And(a, b))
        }
        ExprKind::Or(a, b) => {
            let (a, b) = both(copy_boxed(alloc, a), copy_boxed(alloc, b))?;
            Ok(ExprKind::Or(a, b))
        }
        ExprKind::Cond { test, then, other } => {
            let (test, then) = both(copy_boxed(alloc, test), copy_boxed(alloc, then))?;
            let (other, (test, then)) = kept(copy_boxed(alloc, other), (test, then))?;
            Ok(ExprKind::Cond { test, then, other })
        }
        ExprKind::Comma(a, b) => {
            let (a, b) = both(copy_boxed(alloc, a), copy_boxed(alloc, b))?;
            Ok(ExprKind::Comma(a, b))
        }
        ExprKind::Call { func, args } => Ok(ExprKind::Call {
            func: *func,
            args: copy_all(alloc, args)?,
        }),
        ExprKind::Print { format, args } => Ok(ExprKind::Print {
            format: *format,
            args: copy_all(alloc, args)?,
        }),
    }
}
