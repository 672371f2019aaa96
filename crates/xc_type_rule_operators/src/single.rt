//! Numbers, parentheses and operators of one operand.

ghost use Rattle.std.specs.Prelude.{◌≡◌, IfOk, OnOk};
ghost use Rattle.xc_type_rule.specs.Least.{least_from};
ghost use Rattle.xc_type_rule_operators.specs.Operators as spec;

use crate::kinds::unary_kind;
use crate::rulings::{cast_ruling, unary_ruling};
use std::alloc::{AllocError, Global};
use xc_hold::kept;
use xc_text_place::Span;
use xc_tree::{ExprKind, Ty, UnOp};
use xc_type_rule::{
    Fault, Found, found_by, is_number_value, may_be_number, note_type, spanned, unknown_value,
    value_from,
};

/// A number.
#[tactic(auto, unfolding(crate::specs::Operators::number_part))]
pub fn number(alloc: Global, span: Span, value: u64, unsigned: bool) -> Result<Found, AllocError>
    ensures { IfOk result (λ r. r ≡ spec.number_part span value unsigned) }
{
    let ty = if unsigned { Ty::Uint } else { Ty::Int };
    value_from(alloc, span, ty, Some(ExprKind::Const(value)))
}

/// An expression in parentheses, which belong to it.
#[tactic(auto, unfolding(crate::specs::Operators::grouped))]
pub fn grouped(span: Span, a: Found) -> Found
    ensures { result ≡ spec.grouped span a }
{
    Found {
        known: a.known,
        made: spanned(span, a.made),
    }
}

/// `+` of a value, which has no node of its own: what is made stands where the value does.
#[tactic(auto, using(xc_type_rule::proofs::Least::least_rules), unfolding(crate::specs::Operators::plus_part, crate::specs::Operators::plus_faults))]
pub fn plus(span: Span, a: Found, first: &mut Option<Fault>) -> Found
    ensures part { result ≡ spec.plus_part a }
    ensures first { first.new ≡ least_from first.old (spec.plus_faults span a) }
{
    if !may_be_number(&a.known) {
        note_type(first, span);
    }
    if is_number_value(&a.known) {
        return a;
    }
    drop(a);
    unknown_value()
}

/// `-`, `~` or `!` of a value.
#[tactic(auto, using(xc_type_rule::proofs::Least::least_rules), unfolding(crate::specs::Operators::unary_part, crate::specs::Operators::unary_faults))]
pub fn unary(
    alloc: Global,
    span: Span,
    op: UnOp,
    a: Found,
    first: &mut Option<Fault>,
) -> Result<Found, AllocError>
    ensures part { IfOk result (λ r. r ≡ spec.unary_part span op a) }
    ensures first { OnOk result (first.new ≡ least_from first.old (spec.unary_faults span op a)) }
{
    let ruling = unary_ruling(op, a.known);
    let (kind, ruling) = kept(unary_kind(alloc, op, a.made), ruling)?;
    found_by(alloc, span, ruling, kind, first)
}

/// A cast of a value to the type `to`, which is none where it has a fault of its own.
#[tactic(auto, using(xc_type_rule::proofs::Least::least_rules), unfolding(crate::specs::Operators::cast_part, crate::specs::Operators::cast_faults))]
pub fn cast(
    alloc: Global,
    span: Span,
    to: Option<Ty>,
    a: Found,
    first: &mut Option<Fault>,
) -> Result<Found, AllocError>
    ensures part { IfOk result (λ r. r ≡ spec.cast_part span to a) }
    ensures first { OnOk result (first.new ≡ least_from first.old (spec.cast_faults span to a)) }
{
    let Found { known, made } = a;
    let ruling = cast_ruling(to, &known);
    drop(known);
    let (kind, ruling) = kept(unary_kind(alloc, UnOp::Cast, made), ruling)?;
    found_by(alloc, span, ruling, kind, first)
}
