//! How what is found is put together.

ghost use Rattle.std.specs.Prelude.{◌≡◌, IfOk, OnOk};
ghost use Rattle.std.specs.Option.{option_copied};
ghost use Rattle.xc_type_rule.specs.Least.{least_from};
ghost use Rattle.xc_type_rule.specs.Making as making;

use crate::fault::{Fault, note_type};
use crate::found::{Found, Known};
use sqlite_items::Boxed;
use std::alloc::{AllocError, Global};
use xc_hold::kept;
use xc_text_place::Span;
use xc_tree::{Expr, ExprKind, Ty, copy_ty};

/// An expression.
pub fn typed(span: Span, ty: Ty, kind: ExprKind) -> Expr
    ensures { result ≡ making.typed span ty kind }
{
    Expr { ty, span, kind }
}

/// What is found of an expression of unknown type that may name an object.
pub fn unknown_place() -> Found
    ensures { result ≡ making.unknown_place }
{
    Found {
        known: Known::Unknown { place: true },
        made: None,
    }
}

/// What is found of an expression of unknown type that names no object.
pub fn unknown_value() -> Found
    ensures { result ≡ making.unknown_value }
{
    Found {
        known: Known::Unknown { place: false },
        made: None,
    }
}

/// A value of this type, and of this kind if something is made.
#[tactic(auto, unfolding(crate::specs::Making::value_from))]
pub fn value_from(
    alloc: Global,
    span: Span,
    ty: Ty,
    kind: Option<ExprKind>,
) -> Result<Found, AllocError>
    ensures { IfOk result (λ r. r ≡ making.value_from span ty kind) }
{
    match kind {
        None => Ok(Found {
            known: Known::Value(ty),
            made: None,
        }),
        Some(kind) => {
            let (same, (ty, kind)) = kept(copy_ty(alloc, &ty), (ty, kind))?;
            Ok(Found {
                known: Known::Value(ty),
                made: Some(typed(span, same, kind)),
            })
        }
    }
}

fn pointer_to(alloc: Global, ty: &Ty) -> Result<Ty, AllocError>
    ensures { IfOk result (λ r. r ≡ Ty.Ptr ty.now) }
{
    Ok(Ty::Ptr(Boxed::new(alloc, copy_ty(alloc, ty)?)?))
}

/// The place of an object of this type.
#[tactic(auto, unfolding(crate::specs::Making::place_from))]
pub fn place_from(
    alloc: Global,
    span: Span,
    ty: Ty,
    within: bool,
    kind: Option<ExprKind>,
) -> Result<Found, AllocError>
    ensures { IfOk result (λ r. r ≡ making.place_from span ty within kind) }
{
    match kind {
        None => Ok(Found {
            known: Known::Place { ty, within },
            made: None,
        }),
        Some(kind) => {
            let (pointer, (ty, kind)) = kept(pointer_to(alloc, &ty), (ty, kind))?;
            Ok(Found {
                known: Known::Place { ty, within },
                made: Some(typed(span, pointer, kind)),
            })
        }
    }
}

/// The place of what is declared with this type; none is the type of a declaration with a fault.
#[tactic(auto, unfolding(crate::specs::Making::declared_place))]
pub fn declared_place(
    alloc: Global,
    span: Span,
    ty: Option<&Ty>,
    within: bool,
    kind: Option<ExprKind>,
) -> Result<Found, AllocError>
    ensures { IfOk result (λ r. r ≡ making.declared_place span (option_copied ty.entry) within kind) }
{
    match ty {
        None => {
            drop(kind);
            Ok(unknown_place())
        }
        Some(ty) => {
            let (ty, kind) = kept(copy_ty(alloc, ty), kind)?;
            place_from(alloc, span, ty, within, kind)
        }
    }
}

/// What the ruling of a rule that gives values makes of a kind. Where the ruling is none, a rule of types is broken.
#[tactic(auto, using(crate::proofs::Least::least_rules), unfolding(crate::specs::Making::found_by, crate::specs::Making::faults_by))]
pub fn found_by(
    alloc: Global,
    span: Span,
    ruling: Option<Known>,
    kind: Option<ExprKind>,
    first: &mut Option<Fault>,
) -> Result<Found, AllocError>
    ensures part { IfOk result (λ r. r ≡ making.found_by span ruling kind) }
    ensures first { OnOk result (first.new ≡ least_from first.old (making.faults_by span ruling)) }
{
    match ruling {
        None => {
            drop(kind);
            note_type(first, span);
            Ok(unknown_value())
        }
        Some(Known::Value(ty)) => value_from(alloc, span, ty, kind),
        Some(other) => {
            drop((other, kind));
            Ok(unknown_value())
        }
    }
}

/// The same of a rule that gives places.
#[tactic(auto, using(crate::proofs::Least::least_rules), unfolding(crate::specs::Making::place_by, crate::specs::Making::faults_by))]
pub fn place_by(
    alloc: Global,
    span: Span,
    ruling: Option<Known>,
    kind: Option<ExprKind>,
    first: &mut Option<Fault>,
) -> Result<Found, AllocError>
    ensures part { IfOk result (λ r. r ≡ making.place_by span ruling kind) }
    ensures first { OnOk result (first.new ≡ least_from first.old (making.faults_by span ruling)) }
{
    match ruling {
        None => {
            drop(kind);
            note_type(first, span);
            Ok(unknown_place())
        }
        Some(Known::Place { ty, within }) => place_from(alloc, span, ty, within, kind),
        Some(other) => {
            drop((other, kind));
            Ok(unknown_place())
        }
    }
}

/// The same at other bytes: where parentheses or a `+` stand before it.
#[tactic(auto, unfolding(crate::specs::Making::spanned))]
pub fn spanned(span: Span, made: Option<Expr>) -> Option<Expr>
    ensures { result ≡ making.spanned span made }
{
    match made {
        None => None,
        Some(e) => {
            let Expr { ty, span: _, kind } = e;
            Some(typed(span, ty, kind))
        }
    }
}
