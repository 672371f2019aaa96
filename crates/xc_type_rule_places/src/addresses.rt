//! Addresses.

ghost use Rattle.std.specs.Prelude.{◌≡◌, IfOk, OnOk, option_map};
ghost use Rattle.xc_type_rule.specs.Least.{least_from};
ghost use Rattle.xc_type_rule_places.specs.Rulings as rulings;
ghost use Rattle.xc_type_rule_places.specs.Places as spec;

use sqlite_items::Boxed;
use std::alloc::{AllocError, Global};
use xc_hold::kept;
use xc_text_place::Span;
use xc_tree::{Expr, ExprKind, Ty};
use xc_type_rule::{Fault, Found, Known, found_by};

fn address_ruling(alloc: Global, known: Known) -> Result<Option<Known>, AllocError>
    ensures { IfOk result (λ r. r ≡ rulings.address_ruling known) }
{
    match known {
        Known::Unknown { place } => {
            if place {
                return Ok(Some(Known::Unknown { place: false }));
            }
            Ok(None)
        }
        Known::Value(ty) => {
            drop(ty);
            Ok(None)
        }
        Known::Place { ty, within } => {
            if within {
                drop(ty);
                return Ok(None);
            }
            Ok(Some(Known::Value(Ty::Ptr(Boxed::new(alloc, ty)?))))
        }
    }
}

fn raised(kind: ExprKind) -> ExprKind
    ensures { result ≡ rulings.raised kind }
{
    let mut kind = kind;
    if let ExprKind::Index { bound, .. } = &mut kind {
        if let Some(bound) = bound {
            *bound = bound.saturating_add(1);
        }
    }
    kind
}

fn address_kind(made: Option<Expr>) -> Option<ExprKind>
    ensures { result ≡ option_map (λ e. rulings.raised e.kind) made }
{
    match made {
        None => None,
        Some(Expr { ty, kind, .. }) => {
            drop(ty);
            Some(raised(kind))
        }
    }
}

/// `&a` of a place, which is a value. Where that is an index of an array, the index may be the array's bound.
#[tactic(auto, using(xc_type_rule::proofs::Least::least_rules), unfolding(crate::specs::Places::address_part, crate::specs::Places::address_faults))]
pub fn address(
    alloc: Global,
    span: Span,
    a: Found,
    first: &mut Option<Fault>,
) -> Result<Found, AllocError>
    ensures part { IfOk result (λ r. r ≡ spec.address_part span a) }
    ensures first { OnOk result (first.new ≡ least_from first.old (spec.address_faults span a)) }
{
    let Found { known, made } = a;
    let kind = address_kind(made);
    let (ruling, kind) = kept(address_ruling(alloc, known), kind)?;
    found_by(alloc, span, ruling, kind, first)
}
