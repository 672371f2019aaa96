//! Elements of arrays, and objects that pointers lead to.

ghost use Rattle.std.specs.Prelude.{◌≡◌, IfOk, OnOk, option_map};
ghost use Rattle.xc_tree.specs.declared.ty.Ty.{out-Ty};
ghost use Rattle.xc_tree.specs.Types.{pointee};
ghost use Rattle.xc_type_rule.specs.Least.{least_from};
ghost use Rattle.xc_type_rule.specs.Making.{both};
ghost use Rattle.xc_type_rule_places.specs.Rulings as rulings;
ghost use Rattle.xc_type_rule_places.specs.Places as spec;

use sqlite_items::Boxed;
use std::alloc::{AllocError, Global};
use xc_hold::{both, kept};
use xc_text_place::Span;
use xc_tree::{Expr, ExprKind, Ty};
use xc_type_rule::{Fault, Found, Known, cells, may_be_number, place_by, rvalue, typed};

/// What an index goes from: what the element is, or none where there is none; how many cells it takes; the bound of the
/// array, or none behind a pointer; and the place of the array, or the pointer.
#[derive(Drop)]
pub(crate) struct Base {
    pub element: Option<Known>,
    pub size: u32,
    pub bound: Option<u32>,
    pub made: Option<Expr>,
}

fn pointed_size(sizes: &[u32], known: &Known) -> u32
    ensures { result ≡ rulings.pointed_size sizes.now known.now }
{
    match known {
        Known::Value(Ty::Ptr(to)) => cells(sizes, to.get()),
        _ => 0,
    }
}

fn object_of(pointer: Ty) -> Option<Known>
    ensures { result ≡ option_map rulings.object_at (pointee pointer) }
{
    match pointer {
        Ty::Ptr(to) => Some(Known::Place {
            ty: to.into_inner(),
            within: false,
        }),
        Ty::Void | Ty::Int | Ty::Uint => None,
        Ty::Array(_, _) | Ty::Struct(_) | Ty::Sync(_) | Ty::Future(_) => None,
    }
}

fn pointed(known: Known) -> Option<Known>
    ensures { result ≡ rulings.pointed known }
{
    match known {
        Known::Unknown { .. } => Some(Known::Unknown { place: true }),
        Known::Value(ty) => object_of(ty),
        Known::Place { ty, within: _ } => {
            drop(ty);
            None
        }
    }
}

#[tactic(auto, unfolding(crate::specs::Rulings::pointer_base))]
fn pointer_base(sizes: &[u32], value: Found) -> Base
    ensures { result ≡ rulings.pointer_base sizes.now value }
{
    let Found { known, made } = value;
    let size = pointed_size(sizes, &known);
    Base {
        element: pointed(known),
        size,
        bound: None,
        made,
    }
}

fn no_base() -> Base
    ensures { result ≡ rulings.no_base }
{
    Base {
        element: None,
        size: 0,
        bound: None,
        made: None,
    }
}

fn is_array(known: &Known) -> bool
    ensures { result ≡ rulings.is_array known.now }
{
    match known {
        Known::Place {
            ty: Ty::Array(_, _),
            ..
        } => true,
        _ => false,
    }
}

fn array_at(sizes: &[u32], within: bool, ty: Ty, made: Option<Expr>) -> Base
    ensures { result ≡ rulings.array_at sizes.now within (out-Ty ty) made }
{
    match ty {
        Ty::Array(bound, of) => {
            let ty = of.into_inner();
            Base {
                size: cells(sizes, &ty),
                element: Some(Known::Place { ty, within }),
                bound: Some(bound),
                made,
            }
        }
        Ty::Void | Ty::Int | Ty::Uint | Ty::Struct(_) => {
            drop(made);
            no_base()
        }
        Ty::Ptr(of) | Ty::Sync(of) | Ty::Future(of) => {
            drop((of, made));
            no_base()
        }
    }
}

#[tactic(auto, unfolding(crate::specs::Rulings::array_base))]
fn array_base(sizes: &[u32], a: Found) -> Base
    ensures { result ≡ rulings.array_base sizes.now a }
{
    let Found { known, made } = a;
    match known {
        Known::Place { ty, within } => array_at(sizes, within, ty, made),
        Known::Unknown { .. } => {
            drop(made);
            no_base()
        }
        Known::Value(ty) => {
            drop((ty, made));
            no_base()
        }
    }
}

fn index_ruling(element: Option<Known>, index: &Known) -> Option<Known>
    ensures { result ≡ rulings.index_ruling element index.now }
{
    if may_be_number(index) {
        element
    } else {
        drop(element);
        None
    }
}

#[tactic(auto, unfolding(xc_type_rule::specs::Making::both))]
fn element_of(
    alloc: Global,
    size: u32,
    bound: Option<u32>,
    base: Option<Expr>,
    index: Option<Expr>,
) -> Result<Option<ExprKind>, AllocError>
    ensures { IfOk result (λ r. r ≡ both (spec.element_of size bound) base index) }
{
    match (base, index) {
        (Some(base), Some(index)) => {
            let (base, index) = both(Boxed::new(alloc, base), Boxed::new(alloc, index))?;
            Ok(Some(ExprKind::Index {
                base,
                index,
                size,
                bound,
            }))
        }
        (None, None) => Ok(None),
        (None, Some(index)) => {
            drop(index);
            Ok(None)
        }
        (Some(base), None) => {
            drop(base);
            Ok(None)
        }
    }
}

#[tactic(auto, using(xc_type_rule::proofs::Least::least_rules), unfolding(crate::specs::Places::element_part, crate::specs::Places::element_faults))]
fn element(
    alloc: Global,
    span: Span,
    base: Base,
    index: Found,
    first: &mut Option<Fault>,
) -> Result<Found, AllocError>
    ensures part { IfOk result (λ r. r ≡ spec.element_part span base index) }
    ensures first { OnOk result (first.new ≡ least_from first.old (spec.element_faults span base index)) }
{
    let Base {
        element,
        size,
        bound,
        made,
    } = base;
    let ruling = index_ruling(element, &index.known);
    drop(index.known);
    let kind = element_of(alloc, size, bound, made, index.made);
    let (kind, ruling) = kept(kind, ruling)?;
    place_by(alloc, span, ruling, kind, first)
}

fn base_of(alloc: Global, sizes: &[u32], at: Span, a: Found) -> Result<Base, AllocError>
    ensures { IfOk result (λ r. r ≡ spec.base_of sizes.now at a) }
{
    if is_array(&a.known) {
        return Ok(array_base(sizes, a));
    }
    let value = rvalue(alloc, sizes, at, a)?;
    Ok(pointer_base(sizes, value))
}

/// `a[index]`, where `a` is an array or a pointer and `at` covers it, and `index` is a value. An array is no value here, so
/// it may lie in a mixed struct.
#[tactic(auto, using(xc_type_rule::proofs::Least::least_rules), unfolding(crate::specs::Places::index_part, crate::specs::Places::index_faults))]
pub fn index(
    alloc: Global,
    sizes: &[u32],
    span: Span,
    at: Span,
    a: Found,
    index: Found,
    first: &mut Option<Fault>,
) -> Result<Found, AllocError>
    ensures part { IfOk result (λ r. r ≡ spec.index_part sizes.now span at a index) }
    ensures first { OnOk result (first.new ≡ least_from first.old (spec.index_faults sizes.now span at a index)) }
{
    let (base, index) = kept(base_of(alloc, sizes, at, a), index)?;
    element(alloc, span, base, index, first)
}

fn zero(span: Span) -> Found
    ensures { result ≡ spec.zero span }
{
    Found {
        known: Known::Value(Ty::Int),
        made: Some(typed(span, Ty::Int, ExprKind::Const(0))),
    }
}

/// `*p` of a value.
#[tactic(auto, unfolding(crate::specs::Places::star_part, crate::specs::Places::star_faults))]
pub fn star(
    alloc: Global,
    sizes: &[u32],
    span: Span,
    p: Found,
    first: &mut Option<Fault>,
) -> Result<Found, AllocError>
    ensures part { IfOk result (λ r. r ≡ spec.star_part sizes.now span p) }
    ensures first { OnOk result (first.new ≡ least_from first.old (spec.star_faults sizes.now span p)) }
{
    element(alloc, span, pointer_base(sizes, p), zero(span), first)
}
