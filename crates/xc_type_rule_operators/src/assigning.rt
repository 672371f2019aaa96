//! Assignments.

ghost use Rattle.std.specs.Prelude.{◌≡◌, IfOk, OnOk, false};
ghost use Rattle.std.specs.Option.{option_copied};
ghost use Rattle.xc_tree.specs.Typed.{sort_of};
ghost use Rattle.xc_type_rule.specs.Least.{least_from};
ghost use Rattle.xc_type_rule_operators.specs.Operators as spec;

use crate::kinds::{Pair, paired};
use crate::rulings::{assign_ruling, target, update_ruling};
use crate::single::number;
use std::alloc::{AllocError, Global};
use xc_hold::kept;
use xc_text_place::Span;
use xc_tree::{BinOp, Ty};
use xc_type_rule::{Fault, Found, given, may_be_place};

#[tactic(auto, unfolding(crate::specs::Operators::suited))]
fn suited(alloc: Global, to: Option<&Ty>, value: Found) -> Result<Found, AllocError>
    ensures { IfOk result (λ r. r ≡ spec.suited (option_copied to.entry) value) }
{
    match to {
        None => Ok(value),
        Some(ty) => given(alloc, ty, value),
    }
}

/// `=` of a place and a value. The write is of the kind that the place's qualifier demands.
#[tactic(auto, unfolding(crate::specs::Operators::assign_part, crate::specs::Operators::assign_faults, crate::specs::Operators::written_part, crate::specs::Operators::written_faults, crate::specs::Rulings::assign_ruling))]
pub fn assign(
    alloc: Global,
    span: Span,
    to: Found,
    value: Found,
    first: &mut Option<Fault>,
) -> Result<Found, AllocError>
    ensures part { IfOk result (λ r. r ≡ spec.assign_part span to value) }
    ensures first { OnOk result (first.new ≡ least_from first.old (spec.assign_faults span to value)) }
{
    let Found { known, made } = to;
    let unsure = may_be_place(&known);
    let ty = target(known);
    let (value, (ty, made)) = kept(suited(alloc, ty.as_ref(), value), (ty, made))?;
    let ruling = assign_ruling(unsure, ty, &value.known);
    drop(value.known);
    paired(alloc, span, ruling, Pair::Write, made, value.made, first)
}

#[tactic(auto, unfolding(crate::specs::Operators::update_part, crate::specs::Operators::update_faults))]
fn updated(
    alloc: Global,
    span: Span,
    op: BinOp,
    post: bool,
    to: Found,
    value: Found,
    first: &mut Option<Fault>,
) -> Result<Found, AllocError>
    ensures part { IfOk result (λ r. r ≡ spec.update_part span op post to value) }
    ensures first { OnOk result (first.new ≡ least_from first.old (spec.update_faults span op to value)) }
{
    let ruling = update_ruling(op, to.known, &value.known);
    drop(value.known);
    paired(
        alloc,
        span,
        ruling,
        Pair::Update { op, post },
        to.made,
        value.made,
        first,
    )
}

/// A compound assignment of a place and a value.
pub fn update(
    alloc: Global,
    span: Span,
    op: BinOp,
    to: Found,
    value: Found,
    first: &mut Option<Fault>,
) -> Result<Found, AllocError>
    ensures part { IfOk result (λ r. r ≡ spec.update_part span op false to value) }
    ensures first { OnOk result (first.new ≡ least_from first.old (spec.update_faults span op to value)) }
{
    updated(alloc, span, op, false, to, value, first)
}

/// `++` or `--` of a place: `op` is `+` or `-`, and `post` says that the operator stands behind.
pub fn step(
    alloc: Global,
    span: Span,
    op: BinOp,
    post: bool,
    to: Found,
    first: &mut Option<Fault>,
) -> Result<Found, AllocError>
    ensures part { IfOk result (λ r. r ≡ spec.step_part span op post to) }
    ensures first { OnOk result (first.new ≡ least_from first.old (spec.step_faults span op to)) }
{
    let (one, to) = kept(number(alloc, span, 1, false), to)?;
    updated(alloc, span, op, post, to, one, first)
}
