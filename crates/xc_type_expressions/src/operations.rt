//! Operators, by what is found of their operands.

ghost use Rattle.std.specs.Prelude.{◌≡◌, IfOk};
ghost use Rattle.xc_type_rule.specs.Making as making;
ghost use Rattle.xc_type_scopes.specs.Judge.{Judges};
ghost use Rattle.xc_type_scopes.specs.InnerTold.{Tells};
ghost use Rattle.xc_type_expressions.specs.Operations as spec;

use std::alloc::{AllocError, Global};
use xc_raw_parts::{Assignment, Operator, Prefix, step_op};
use xc_text_place::Span;
use xc_tree::Ty;
use xc_type_rule::{Fault, Found, unknown_place};
use xc_type_rule_calls::misused;
use xc_type_rule_operators::{Logic, assign, binary, cast, logical, plus, step, unary, update};
use xc_type_rule_places::{address, star};
use xc_type_scopes::Env;

/// What is no expression is nothing, whatever its part is.
pub(crate) fn nothing_of(a: Found) -> Found
    ensures { result ≡ making.unknown_place }
{
    drop(a);
    unknown_place()
}

/// The same of two parts.
pub(crate) fn nothing_of_both(a: Found, b: Found) -> Found
    ensures { result ≡ making.unknown_place }
{
    drop(a);
    nothing_of(b)
}

/// An operator before its operand.
#[tactic(auto, using(xc_type_rule::proofs::Least::least_rules), unfolding(crate::specs::Operations::prefixed))]
pub(crate) fn prefixed(
    alloc: Global,
    env: &mut Env,
    span: Span,
    op: Option<Prefix>,
    a: Found,
    first: &mut Option<Fault>,
) -> Result<Found, AllocError>
    ensures { IfOk result (λ r. Judges (spec.prefixed span op a) env.old env.new first.old first.new r) }
{
    match op {
        None => Ok(nothing_of(a)),
        Some(Prefix::Step(s)) => step(alloc, span, step_op(s), false, a, first),
        Some(Prefix::Address) => {
            env.take_address(&a.made);
            address(alloc, span, a, first)
        }
        Some(Prefix::Star) => star(alloc, env.structs().sizes(), span, a, first),
        Some(Prefix::Plus) => Ok(plus(span, a, first)),
        Some(Prefix::Value(op)) => unary(alloc, span, op, a, first),
    }
}

/// A cast to a type that has stars, or none.
#[tactic(auto, using(xc_type_rule::proofs::Least::least_rules))]
pub(crate) fn cast_to(
    alloc: Global,
    span: Span,
    has_stars: bool,
    ty: Option<Ty>,
    a: Found,
    first: &mut Option<Fault>,
) -> Result<Found, AllocError>
    ensures { IfOk result (λ r. Tells (spec.cast_to span has_stars ty a) first.old first.new r) }
{
    if has_stars {
        drop(ty);
        drop(a);
        Ok(misused(span, first))
    } else {
        cast(alloc, span, ty, a, first)
    }
}

fn operated(
    alloc: Global,
    span: Span,
    op: Operator,
    a: Found,
    b: Found,
    first: &mut Option<Fault>,
) -> Result<Found, AllocError>
    ensures { IfOk result (λ r. Tells (spec.operated span op a b) first.old first.new r) }
{
    match op {
        Operator::Value(op) => binary(alloc, span, op, a, b, first),
        Operator::And => logical(alloc, span, Logic::And, a, b, first),
        Operator::Or => logical(alloc, span, Logic::Or, a, b, first),
    }
}

/// An operator between two values.
#[tactic(auto, using(xc_type_rule::proofs::Least::least_rules), unfolding(crate::specs::Operations::between))]
pub(crate) fn between(
    alloc: Global,
    span: Span,
    op: Option<Operator>,
    a: Found,
    b: Found,
    first: &mut Option<Fault>,
) -> Result<Found, AllocError>
    ensures { IfOk result (λ r. Tells (spec.between span op a b) first.old first.new r) }
{
    match op {
        None => Ok(nothing_of_both(a, b)),
        Some(op) => operated(alloc, span, op, a, b, first),
    }
}

fn assigned_by(
    alloc: Global,
    span: Span,
    op: Assignment,
    to: Found,
    value: Found,
    first: &mut Option<Fault>,
) -> Result<Found, AllocError>
    ensures { IfOk result (λ r. Tells (spec.assigned_by span op to value) first.old first.new r) }
{
    match op {
        Assignment::Plain => assign(alloc, span, to, value, first),
        Assignment::With(op) => update(alloc, span, op, to, value, first),
    }
}

/// An assignment.
#[tactic(auto, using(xc_type_rule::proofs::Least::least_rules), unfolding(crate::specs::Operations::assigned))]
pub(crate) fn assigned(
    alloc: Global,
    span: Span,
    op: Option<Assignment>,
    to: Found,
    value: Found,
    first: &mut Option<Fault>,
) -> Result<Found, AllocError>
    ensures { IfOk result (λ r. Tells (spec.assigned span op to value) first.old first.new r) }
{
    match op {
        None => Ok(nothing_of_both(to, value)),
        Some(op) => assigned_by(alloc, span, op, to, value, first),
    }
}
