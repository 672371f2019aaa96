//! Expressions.

ghost use Rattle.std.specs.Prelude.{◌≡◌, IfOk, Some};
ghost use Rattle.std.specs.Option.{unwrap_or};
ghost use Rattle.xc_tree.specs.Types.{pointee};
ghost use Rattle.xc_type_lowering.specs.Lowered.{value_of, lowering, lowered, read_of, written_of, updated_of};
ghost use Rattle.xc_type_lowering.specs.InnerLowered.{lowering_kind, all_lowered};

use sqlite_items::{Boxed, Items};
use std::alloc::{AllocError, Global};
use xc_hold::{both, kept};
use xc_tree::{Expr, ExprKind, Ty, copy_ty};
use xc_word::Kind;

// The local, where its address is never taken.
fn value_of(addressed: &[bool], x: u32) -> Option<u32>
    ensures { result ≡ value_of addressed.now x }
{
    match addressed.get(x as usize).copied() {
        Some(false) => Some(x),
        Some(true) => None,
        None => None,
    }
}

// The local that this is the place of, where its address is never taken.
fn value_at(addressed: &[bool], place: &Expr) -> Option<u32>
    ensures { result ≡ (lowering addressed.now place.now).value }
{
    match &place.kind {
        ExprKind::Auto(x) => value_of(addressed, *x),
        _ => None,
    }
}

// The type of the object at a place of this type.
fn object_type(alloc: Global, ty: &Ty) -> Result<Ty, AllocError>
    ensures { IfOk result (λ r. r ≡ unwrap_or (pointee ty.now) ty.now) }
{
    match ty {
        Ty::Ptr(to) => Ok(copy_ty(alloc, to.get())?),
        _ => Ok(copy_ty(alloc, ty)?),
    }
}

fn variable(alloc: Global, x: u32, place: &Expr) -> Result<Expr, AllocError>
    ensures { IfOk result (λ r. r ≡ updated_of (Some x) place.now) }
{
    let ty = object_type(alloc, &place.ty)?;
    Ok(Expr {
        ty,
        span: place.span,
        kind: ExprKind::Local(x),
    })
}

// A read, where `value` is the local whose place this is, if that local is a value.
fn read_of(kind: Kind, value: Option<u32>, place: Boxed<Expr>) -> ExprKind
    ensures { result ≡ read_of kind value place }
{
    match (kind, value) {
        (Kind::ReadXx, Some(x)) => {
            drop(place);
            ExprKind::Local(x)
        }
        _ => ExprKind::Read { kind, place },
    }
}

fn written_of(kind: Kind, local: Option<u32>, place: Boxed<Expr>, value: Boxed<Expr>) -> ExprKind
    ensures { result ≡ written_of kind local place value }
{
    match (kind, local) {
        (Kind::WriteXf, Some(local)) => {
            drop(place);
            ExprKind::Set { local, value }
        }
        _ => ExprKind::Write { kind, place, value },
    }
}

// What a compound assignment changes.
fn updated_of(
    alloc: Global,
    value: Option<u32>,
    place: Boxed<Expr>,
) -> Result<Boxed<Expr>, AllocError>
    ensures { IfOk result (λ r. r ≡ updated_of value place) }
{
    match value {
        None => Ok(place),
        Some(x) => {
            let (variable, place) = kept(variable(alloc, x, place.get()), place)?;
            drop(place);
            Boxed::new(alloc, variable)
        }
    }
}

/// The lowered expression.
#[cycle(lower_expression)]
pub fn make_expr(alloc: Global, addressed: &[bool], e: &Expr) -> Result<Expr, AllocError>
    ensures { IfOk result (λ r. r ≡ lowered addressed.now e.now) }
{
    let (ty, kind) = both(copy_ty(alloc, &e.ty), lower_kind(alloc, addressed, &e.kind))?;
    Ok(Expr {
        ty,
        span: e.span,
        kind,
    })
}

#[cycle(lower_expression)]
fn lower_boxed(
    alloc: Global,
    addressed: &[bool],
    e: &Boxed<Expr>,
) -> Result<Boxed<Expr>, AllocError>
    ensures { IfOk result (λ r. r ≡ lowered addressed.now e.now) }
{
    Boxed::new(alloc, make_expr(alloc, addressed, e.get())?)
}

#[cycle(lower_expression)]
#[tactic(auto, using(crate::proofs::Names::list_rules))]
fn lower_all(
    alloc: Global,
    addressed: &[bool],
    list: &Items<Expr>,
) -> Result<Items<Expr>, AllocError>
    ensures { IfOk result (λ r. r ≡ all_lowered addressed.now list.now) }
{
    let mut all = Items::new(alloc);
    for e in list.as_slice() {
        all.push(make_expr(alloc, addressed, e)?)?;
    }
    Ok(all)
}

#[cycle(lower_expression)]
fn lower_kind(alloc: Global, addressed: &[bool], kind: &ExprKind) -> Result<ExprKind, AllocError>
    ensures { IfOk result (λ r. r ≡ (lowering_kind addressed.now kind.now).kind) }
{
    match kind {
        ExprKind::Const(n) => Ok(ExprKind::Const(*n)),
        ExprKind::Local(x) => Ok(ExprKind::Local(*x)),
        ExprKind::Set { local, value } => Ok(ExprKind::Set {
            local: *local,
            value: lower_boxed(alloc, addressed, value)?,
        }),
        ExprKind::Global(g) => Ok(ExprKind::Global(*g)),
        ExprKind::Auto(x) => Ok(ExprKind::Auto(*x)),
        ExprKind::Index {
            base,
            index,
            size,
            bound,
        } => {
            let (base, index) = both(
                lower_boxed(alloc, addressed, base),
                lower_boxed(alloc, addressed, index),
            )?;
            Ok(ExprKind::Index {
                base,
                index,
                size: *size,
                bound: *bound,
            })
        }
        ExprKind::Member { base, off } => Ok(ExprKind::Member {
            base: lower_boxed(alloc, addressed, base)?,
            off: *off,
        }),
        ExprKind::Read { kind, place } => {
            let local = value_at(addressed, place.get());
            let place = lower_boxed(alloc, addressed, place)?;
            Ok(read_of(*kind, local, place))
        }
        ExprKind::Write { kind, place, value } => {
            let local = value_at(addressed, place.get());
            let (place, value) = both(
                lower_boxed(alloc, addressed, place),
                lower_boxed(alloc, addressed, value),
            )?;
            Ok(written_of(*kind, local, place, value))
        }
        ExprKind::FetchAdd { place, value } => {
            let (place, value) = both(
                lower_boxed(alloc, addressed, place),
                lower_boxed(alloc, addressed, value),
            )?;
            Ok(ExprKind::FetchAdd { place, value })
        }
        ExprKind::Purge { place } => Ok(ExprKind::Purge {
            place: lower_boxed(alloc, addressed, place)?,
        }),
        ExprKind::Update {
            op,
            post,
            place,
            value,
        } => {
            let local = value_at(addressed, place.get());
            let place = lower_boxed(alloc, addressed, place)?;
            let place = updated_of(alloc, local, place);
            let (place, value) = both(place, lower_boxed(alloc, addressed, value))?;
            Ok(ExprKind::Update {
                op: *op,
                post: *post,
                place,
                value,
            })
        }
        ExprKind::Unary { op, of } => Ok(ExprKind::Unary {
            op: *op,
            of: lower_boxed(alloc, addressed, of)?,
        }),
        ExprKind::Binary { op, a, b } => {
            let (a, b) = both(
                lower_boxed(alloc, addressed, a),
                lower_boxed(alloc, addressed, b),
            )?;
            Ok(ExprKind::Binary { op: *op, a, b })
        }
        ExprKind::And(a, b) => {
            let (a, b) = both(
                lower_boxed(alloc, addressed, a),
                lower_boxed(alloc, addressed, b),
            )?;
            Ok(ExprKind::And(a, b))
        }
        ExprKind::Or(a, b) => {
            let (a, b) = both(
                lower_boxed(alloc, addressed, a),
                lower_boxed(alloc, addressed, b),
            )?;
            Ok(ExprKind::Or(a, b))
        }
        ExprKind::Cond { test, then, other } => {
            let (test, then) = both(
                lower_boxed(alloc, addressed, test),
                lower_boxed(alloc, addressed, then),
            )?;
            let (other, (test, then)) = kept(lower_boxed(alloc, addressed, other), (test, then))?;
            Ok(ExprKind::Cond { test, then, other })
        }
        ExprKind::Comma(a, b) => {
            let (a, b) = both(
                lower_boxed(alloc, addressed, a),
                lower_boxed(alloc, addressed, b),
            )?;
            Ok(ExprKind::Comma(a, b))
        }
        ExprKind::Call { func, args } => Ok(ExprKind::Call {
            func: *func,
            args: lower_all(alloc, addressed, args)?,
        }),
        ExprKind::Print { format, args } => Ok(ExprKind::Print {
            format: *format,
            args: lower_all(alloc, addressed, args)?,
        }),
    }
}
