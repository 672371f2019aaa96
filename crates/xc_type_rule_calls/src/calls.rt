//! Calls of functions.

ghost use Rattle.std.specs.Prelude.{◌≡◌, IfOk, OnOk};
ghost use Rattle.std.specs.Option.{option_copied};
ghost use Rattle.xc_type_rule.specs.Least.{least_from, type_fault};
ghost use Rattle.xc_type_rule.specs.Making.{unknown_value, both};
ghost use Rattle.xc_type_rule_calls.specs.Arguments.{all_made};
ghost use Rattle.xc_type_rule_calls.specs.Calls as spec;

use crate::arguments::{all_fit, all_made, given_to, ruled};
use std::alloc::{AllocError, Global};
use xc_hold::both;
use xc_text_place::Span;
use xc_tree::{ExprKind, Ty, copy_ty};
use xc_type_rule::{Fault, Found, Known, Thing, found_by, note_name, note_type, unknown_value};

/// A call of what is no function's name, or of `printf` without a text, which breaks a rule of types whatever is known of its
/// parts.
pub fn misused(span: Span, first: &mut Option<Fault>) -> Found
    ensures part { result ≡ unknown_value }
    ensures first { first.new ≡ least_from first.old (type_fault span) }
{
    note_type(first, span);
    unknown_value()
}

fn returned(alloc: Global, ret: &Option<Ty>) -> Result<Known, AllocError>
    ensures { IfOk result (λ r. r ≡ spec.returned ret.now) }
{
    match ret {
        None => Ok(Known::Unknown { place: false }),
        Some(ty) => Ok(Known::Value(copy_ty(alloc, ty)?)),
    }
}

#[tactic(auto, unfolding(crate::specs::Calls::call_ruling))]
fn call_ruling(
    alloc: Global,
    params: &[Option<Ty>],
    ret: &Option<Ty>,
    args: &[Found],
) -> Result<Option<Known>, AllocError>
    ensures { IfOk result (λ r. r ≡ spec.call_ruling params.now ret.now args.now) }
{
    let fit = all_fit(params, args);
    Ok(ruled(fit, returned(alloc, ret)?))
}

#[tactic(auto, unfolding(xc_type_rule::specs::Making::both))]
fn call_of(
    alloc: Global,
    number: Option<u32>,
    args: Vec<Found>,
) -> Result<Option<ExprKind>, AllocError>
    ensures { IfOk result (λ r. r ≡ both spec.call_of number (all_made args.items)) }
{
    let made = all_made(alloc, args)?;
    match (number, made) {
        (Some(func), Some(args)) => Ok(Some(ExprKind::Call { func, args })),
        (None, None) => Ok(None),
        (None, Some(_)) => Ok(None),
        (Some(_), None) => Ok(None),
    }
}

#[tactic(auto, using(xc_type_rule::proofs::Least::least_rules), unfolding(crate::specs::Calls::called_part, crate::specs::Calls::called_faults))]
fn called(
    alloc: Global,
    span: Span,
    number: Option<u32>,
    params: &[Option<Ty>],
    ret: &Option<Ty>,
    args: Vec<Found>,
    first: &mut Option<Fault>,
) -> Result<Found, AllocError>
    ensures part { IfOk result (λ r. r ≡ spec.called_part span number params.now ret.now args.items) }
    ensures first { OnOk result (first.new ≡ least_from first.old (spec.called_faults span params.now ret.now args.items)) }
{
    let ruling = call_ruling(alloc, params, ret, args.as_slice());
    let (kind, ruling) = both(call_of(alloc, number, args), ruling)?;
    found_by(alloc, span, ruling, kind, first)
}

#[tactic(auto, using(xc_type_rule::proofs::Least::least_rules))]
fn note_undefined(at: Span, number: Option<u32>, first: &mut Option<Fault>)
    ensures { first.new ≡ least_from first.old (spec.defined_faults at number) }
{
    if number.is_none() {
        note_name(first, at);
    }
}

/// A call by a name, which `at` covers, of what the name stands for.
#[tactic(auto, using(xc_type_rule::proofs::Least::least_rules), unfolding(crate::specs::Calls::call_part, crate::specs::Calls::call_faults))]
pub fn call(
    alloc: Global,
    span: Span,
    at: Span,
    thing: Option<&Thing>,
    args: Vec<Found>,
    first: &mut Option<Fault>,
) -> Result<Found, AllocError>
    ensures part { IfOk result (λ r. r ≡ spec.call_part span (option_copied thing.entry) args.items) }
    ensures first { OnOk result (first.new ≡ least_from first.old (spec.call_faults span at (option_copied thing.entry) args.items)) }
{
    match thing {
        None => {
            note_name(first, at);
            Ok(unknown_value())
        }
        Some(
            Thing::Func {
                number,
                params,
                ret,
            },
        ) => {
            note_undefined(at, *number, first);
            let args = given_to(alloc, params.as_slice(), args)?;
            called(alloc, span, *number, params.as_slice(), ret, args, first)
        }
        Some(Thing::Global { .. }) => Ok(misused(span, first)),
        Some(Thing::Local { .. }) => Ok(misused(span, first)),
    }
}
