//! `?:` and `,`.

ghost use Rattle.std.specs.Prelude.{◌≡◌, IfOk, OnOk};
ghost use Rattle.xc_type_rule.specs.Least.{least_from};
ghost use Rattle.xc_type_rule_operators.specs.Operators as spec;

use crate::double::evened;
use crate::kinds::{Pair, cond_kind, paired};
use crate::rulings::comma_ruling;
use crate::verdict::{conditional_verdict, told};
use std::alloc::{AllocError, Global};
use xc_hold::kept;
use xc_text_place::Span;
use xc_type_rule::{Fault, Found, found_by, is_null};

/// The comma operator of two values.
#[tactic(auto, unfolding(crate::specs::Operators::comma_part, crate::specs::Operators::comma_faults))]
pub fn comma(
    alloc: Global,
    span: Span,
    a: Found,
    b: Found,
    first: &mut Option<Fault>,
) -> Result<Found, AllocError>
    ensures part { IfOk result (λ r. r ≡ spec.comma_part span a b) }
    ensures first { OnOk result (first.new ≡ least_from first.old (spec.comma_faults span a b)) }
{
    let Found { known, made } = a;
    let ruling = comma_ruling(&known, b.known);
    drop(known);
    paired(alloc, span, ruling, Pair::Comma, made, b.made, first)
}

#[tactic(auto, unfolding(crate::specs::Operators::chosen_part, crate::specs::Operators::chosen_faults))]
fn chosen(
    alloc: Global,
    span: Span,
    test: Found,
    then: Found,
    other: Found,
    first: &mut Option<Fault>,
) -> Result<Found, AllocError>
    ensures part { IfOk result (λ r. r ≡ spec.chosen_part span test then other) }
    ensures first { OnOk result (first.new ≡ least_from first.old (spec.chosen_faults span test then other)) }
{
    let nulls = (is_null(&then), is_null(&other));
    let Found { known, made } = test;
    let verdict = conditional_verdict(&known, &then.known, &other.known, nulls);
    drop(known);
    let ruling = told(verdict, then.known, other.known);
    let (kind, ruling) = kept(cond_kind(alloc, made, then.made, other.made), ruling)?;
    found_by(alloc, span, ruling, kind, first)
}

/// `test ? then : other` of three values.
#[tactic(auto, unfolding(crate::specs::Operators::conditional_part, crate::specs::Operators::conditional_faults))]
pub fn conditional(
    alloc: Global,
    span: Span,
    test: Found,
    then: Found,
    other: Found,
    first: &mut Option<Fault>,
) -> Result<Found, AllocError>
    ensures part { IfOk result (λ r. r ≡ spec.conditional_part span test then other) }
    ensures first { OnOk result (first.new ≡ least_from first.old (spec.conditional_faults span test then other)) }
{
    let (branches, test) = kept(evened(alloc, then, other), test)?;
    let (then, other) = branches;
    chosen(alloc, span, test, then, other, first)
}
