//! What a place holds.

ghost use Rattle.std.specs.Prelude.{◌≡◌, IfOk, option_map};
ghost use Rattle.xc_tree.specs.declared.ty.Ty.{out-Ty};
ghost use Rattle.xc_type_rule.specs.Least.{least_from};
ghost use Rattle.xc_type_rule.specs.Values as values;

use crate::fault::{Fault, note_type};
use crate::found::{Found, Known};
use crate::make::{typed, unknown_value, value_from};
use crate::size::cells;
use sqlite_items::Boxed;
use std::alloc::{AllocError, Global};
use xc_hold::{both, kept};
use xc_text_place::Span;
use xc_tree::{Expr, ExprKind, Ty};

fn read_of(alloc: Global, made: Option<Expr>) -> Result<Option<ExprKind>, AllocError>
    ensures { IfOk result (λ r. r ≡ option_map values.read_of made) }
{
    match made {
        None => Ok(None),
        Some(e) => Ok(Some(ExprKind::Read {
            kind: e.ty.read_kind(),
            place: Boxed::new(alloc, e)?,
        })),
    }
}

fn read(alloc: Global, span: Span, ty: Ty, made: Option<Expr>) -> Result<Found, AllocError>
    ensures { IfOk result (λ r. r ≡ values.read span ty made) }
{
    let (kind, ty) = kept(read_of(alloc, made), ty)?;
    value_from(alloc, span, ty, kind)
}

fn first_element(
    alloc: Global,
    span: Span,
    size: u32,
    bound: u32,
    made: Option<Expr>,
) -> Result<Option<ExprKind>, AllocError>
    ensures { IfOk result (λ r. r ≡ option_map (values.first_element span size bound) made) }
{
    match made {
        None => Ok(None),
        Some(e) => {
            let zero = Boxed::new(alloc, typed(span, Ty::Int, ExprKind::Const(0)));
            let (base, index) = both(Boxed::new(alloc, e), zero)?;
            Ok(Some(ExprKind::Index {
                base,
                index,
                size,
                bound: Some(bound),
            }))
        }
    }
}

fn decayed(
    alloc: Global,
    sizes: &[u32],
    span: Span,
    bound: u32,
    of: Boxed<Ty>,
    made: Option<Expr>,
) -> Result<Found, AllocError>
    ensures { IfOk result (λ r. r ≡ values.decayed sizes.now span bound of made) }
{
    let size = cells(sizes, of.get());
    let kind = first_element(alloc, span, size, bound, made)?;
    value_from(alloc, span, Ty::Ptr(of), kind)
}

fn held(
    alloc: Global,
    sizes: &[u32],
    span: Span,
    ty: Ty,
    within: bool,
    made: Option<Expr>,
) -> Result<Found, AllocError>
    ensures { IfOk result (λ r. r ≡ values.held sizes.now span ty within made (out-Ty ty)) }
{
    match ty {
        Ty::Array(bound, of) => {
            if within {
                drop((of, made));
                return Ok(unknown_value());
            }
            decayed(alloc, sizes, span, bound, of, made)
        }
        Ty::Sync(of) => read(alloc, span, of.into_inner(), made),
        Ty::Future(of) => read(alloc, span, of.into_inner(), made),
        Ty::Struct(s) => Ok(Found {
            known: Known::Place {
                ty: Ty::Struct(s),
                within,
            },
            made,
        }),
        Ty::Void => Ok(Found {
            known: Known::Place {
                ty: Ty::Void,
                within,
            },
            made,
        }),
        Ty::Int => read(alloc, span, Ty::Int, made),
        Ty::Uint => read(alloc, span, Ty::Uint, made),
        Ty::Ptr(to) => read(alloc, span, Ty::Ptr(to), made),
    }
}

fn is_lost(known: &Known) -> bool
    ensures { result ≡ values.is_lost known.now }
{
    match known {
        Known::Place {
            ty: Ty::Array(_, _),
            within,
        } => *within,
        _ => false,
    }
}

/// Tells an array within a mixed struct that is used as a value: such an array is used by indexing alone. `inner` covers
/// the part without the parentheses around it.
#[tactic(auto, using(crate::proofs::Least::least_rules), unfolding(crate::specs::Values::rvalue_faults))]
pub fn note_lost(inner: Span, known: &Known, first: &mut Option<Fault>)
    ensures { first.new ≡ least_from first.old (values.rvalue_faults inner known.now) }
{
    if is_lost(known) {
        note_type(first, inner);
    }
}

/// What a part is as a value: a place becomes what it holds, by a read of the kind that its qualifier demands, and an
/// array the pointer to its first element. A struct has no value and stays a place. `span` covers the part, and
/// `sizes` has the sizes of the structs.
#[tactic(auto, unfolding(crate::specs::Values::rvalue))]
pub fn rvalue(alloc: Global, sizes: &[u32], span: Span, found: Found) -> Result<Found, AllocError>
    ensures { IfOk result (λ r. r ≡ values.rvalue sizes.now span found) }
{
    let Found { known, made } = found;
    match known {
        Known::Unknown { place: _ } => {
            drop(made);
            Ok(unknown_value())
        }
        Known::Value(ty) => Ok(Found {
            known: Known::Value(ty),
            made,
        }),
        Known::Place { ty, within } => held(alloc, sizes, span, ty, within, made),
    }
}
