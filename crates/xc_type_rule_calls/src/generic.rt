//! Calls of the generic functions, each told by the kind of access that it makes.

ghost use Rattle.std.specs.Prelude.{◌≡◌, IfOk, OnOk, option_map};
ghost use Rattle.std.specs.Option.{option_copied};
ghost use Rattle.xc_type_rule.specs.Least.{least_from};
ghost use Rattle.xc_type_rule.specs.Making.{both};
ghost use Rattle.xc_type_rule_calls.specs.Accesses as spec;

use crate::arguments::{given_by, ruled};
use sqlite_items::Boxed;
use std::alloc::{AllocError, Global};
use xc_hold::{both, kept};
use xc_text_place::Span;
use xc_tree::{Expr, ExprKind, Ty, copy_ty};
use xc_type_rule::{
    Fault, Found, Known, base_of, found_by, is_number, may_be_number, may_be_plain, may_fit,
};
use xc_word::Kind;

fn scalar_of(known: &Known) -> Option<&Ty>
    ensures { option_copied result ≡ spec.scalar_of known.now }
{
    match known {
        Known::Value(Ty::Ptr(to)) => base_of(to.get()),
        _ => None,
    }
}

#[tactic(auto, unfolding(crate::specs::Accesses::read_ruling))]
fn read_ruling(alloc: Global, place: &Known) -> Result<Option<Known>, AllocError>
    ensures { IfOk result (λ r. r ≡ spec.read_ruling place.now) }
{
    match place {
        Known::Unknown { .. } => Ok(Some(Known::Unknown { place: false })),
        _ => match scalar_of(place) {
            None => Ok(None),
            Some(ty) => Ok(Some(Known::Value(copy_ty(alloc, ty)?))),
        },
    }
}

#[tactic(auto, unfolding(crate::specs::Accesses::purge_ruling))]
fn purge_ruling(place: &Known) -> Option<Known>
    ensures { result ≡ spec.purge_ruling place.now }
{
    match place {
        Known::Unknown { .. } => Some(Known::Value(Ty::Void)),
        _ => match scalar_of(place) {
            None => None,
            Some(_) => Some(Known::Value(Ty::Void)),
        },
    }
}

#[tactic(auto, unfolding(crate::specs::Accesses::access_ruling))]
fn access_ruling(alloc: Global, kind: Kind, place: &Known) -> Result<Option<Known>, AllocError>
    ensures { IfOk result (λ r. r ≡ spec.access_ruling kind place.now) }
{
    match kind {
        Kind::ReadXx | Kind::ReadFe | Kind::ReadFf => read_ruling(alloc, place),
        Kind::Purge => Ok(purge_ruling(place)),
        Kind::WriteXf | Kind::WriteEf | Kind::WriteFf | Kind::Add => Ok(None),
    }
}

fn access_of(alloc: Global, kind: Kind, place: Option<Expr>) -> Result<Option<ExprKind>, AllocError>
    ensures { IfOk result (λ r. r ≡ option_map (spec.access_of kind) place) }
{
    match place {
        None => Ok(None),
        Some(e) => {
            let place = Boxed::new(alloc, e)?;
            match kind {
                Kind::Purge => Ok(Some(ExprKind::Purge { place })),
                _ => Ok(Some(ExprKind::Read { kind, place })),
            }
        }
    }
}

fn written(ty: Option<&Ty>, value: &Known) -> Option<Known>
    ensures { result ≡ spec.written (option_copied ty.entry) value.now }
{
    match ty {
        None => None,
        Some(ty) => ruled(may_fit(ty, value), Known::Value(Ty::Void)),
    }
}

#[tactic(auto, unfolding(crate::specs::Accesses::write_ruling))]
fn write_ruling(place: &Known, value: &Known) -> Option<Known>
    ensures { result ≡ spec.write_ruling place.now value.now }
{
    match place {
        Known::Unknown { .. } => ruled(may_be_plain(value), Known::Value(Ty::Void)),
        _ => written(scalar_of(place), value),
    }
}

fn added(alloc: Global, ty: Option<&Ty>, value: &Known) -> Result<Option<Known>, AllocError>
    ensures { IfOk result (λ r. r ≡ spec.added (option_copied ty.entry) value.now) }
{
    match ty {
        None => Ok(None),
        Some(ty) => {
            let keeps = is_number(ty) && may_be_number(value);
            Ok(ruled(keeps, Known::Value(copy_ty(alloc, ty)?)))
        }
    }
}

#[tactic(auto, unfolding(crate::specs::Accesses::add_ruling))]
fn add_ruling(alloc: Global, place: &Known, value: &Known) -> Result<Option<Known>, AllocError>
    ensures { IfOk result (λ r. r ≡ spec.add_ruling place.now value.now) }
{
    match place {
        Known::Unknown { .. } => {
            let keeps = may_be_number(value);
            Ok(ruled(keeps, Known::Unknown { place: false }))
        }
        _ => added(alloc, scalar_of(place), value),
    }
}

#[tactic(auto, unfolding(crate::specs::Accesses::update_ruling))]
fn update_ruling(
    alloc: Global,
    kind: Kind,
    place: &Known,
    value: &Known,
) -> Result<Option<Known>, AllocError>
    ensures { IfOk result (λ r. r ≡ spec.update_ruling kind place.now value.now) }
{
    match kind {
        Kind::WriteXf | Kind::WriteEf | Kind::WriteFf => Ok(write_ruling(place, value)),
        Kind::Add => add_ruling(alloc, place, value),
        Kind::ReadXx | Kind::ReadFe | Kind::ReadFf | Kind::Purge => Ok(None),
    }
}

#[tactic(auto, unfolding(xc_type_rule::specs::Making::both))]
fn update_of(
    alloc: Global,
    kind: Kind,
    place: Option<Expr>,
    value: Option<Expr>,
) -> Result<Option<ExprKind>, AllocError>
    ensures { IfOk result (λ r. r ≡ both (spec.update_of kind) place value) }
{
    match (place, value) {
        (Some(place), Some(value)) => {
            let (place, value) = both(Boxed::new(alloc, place), Boxed::new(alloc, value))?;
            match kind {
                Kind::Add => Ok(Some(ExprKind::FetchAdd { place, value })),
                _ => Ok(Some(ExprKind::Write { kind, place, value })),
            }
        }
        (None, None) => Ok(None),
        (None, Some(value)) => {
            drop(value);
            Ok(None)
        }
        (Some(place), None) => {
            drop(place);
            Ok(None)
        }
    }
}

/// A generic function of one argument, a pointer: `readxx`, `readfe`, `readff` or `purge`, as `kind` tells.
#[tactic(auto, using(xc_type_rule::proofs::Least::least_rules), unfolding(crate::specs::Accesses::access_part, crate::specs::Accesses::access_faults))]
pub fn access(
    alloc: Global,
    span: Span,
    kind: Kind,
    place: Found,
    first: &mut Option<Fault>,
) -> Result<Found, AllocError>
    ensures part { IfOk result (λ r. r ≡ spec.access_part span kind place) }
    ensures first { OnOk result (first.new ≡ least_from first.old (spec.access_faults span kind place)) }
{
    let Found { known, made } = place;
    let ruling = access_ruling(alloc, kind, &known);
    drop(known);
    let (made, ruling) = both(access_of(alloc, kind, made), ruling)?;
    found_by(alloc, span, ruling, made, first)
}

#[tactic(auto, using(xc_type_rule::proofs::Least::least_rules), unfolding(crate::specs::Accesses::updated_part, crate::specs::Accesses::updated_faults))]
fn updated(
    alloc: Global,
    span: Span,
    kind: Kind,
    place: Found,
    value: Found,
    first: &mut Option<Fault>,
) -> Result<Found, AllocError>
    ensures part { IfOk result (λ r. r ≡ spec.updated_part span kind place value) }
    ensures first { OnOk result (first.new ≡ least_from first.old (spec.updated_faults span kind place value)) }
{
    let Found { known, made } = place;
    let ruling = update_ruling(alloc, kind, &known, &value.known);
    drop((known, value.known));
    let (made, ruling) = both(update_of(alloc, kind, made, value.made), ruling)?;
    found_by(alloc, span, ruling, made, first)
}

/// A generic function of a pointer and a value: `writexf`, `writeef`, `writeff` or `int_fetch_add`, as `kind` tells.
#[tactic(auto, unfolding(crate::specs::Accesses::update_part, crate::specs::Accesses::update_faults))]
pub fn update(
    alloc: Global,
    span: Span,
    kind: Kind,
    place: Found,
    value: Found,
    first: &mut Option<Fault>,
) -> Result<Found, AllocError>
    ensures part { IfOk result (λ r. r ≡ spec.update_part span kind place value) }
    ensures first { OnOk result (first.new ≡ least_from first.old (spec.update_faults span kind place value)) }
{
    let (value, place) = kept(given_by(alloc, scalar_of(&place.known), value), place)?;
    updated(alloc, span, kind, place, value, first)
}
