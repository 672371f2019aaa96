//! Operators between two values.

ghost use Rattle.std.specs.Prelude.{◌≡◌, IfOk, OnOk};
ghost use Rattle.xc_type_rule.specs.Least.{least_from};
ghost use Rattle.xc_type_rule.specs.Nulls as nulls;
ghost use Rattle.xc_type_rule_operators.specs.Operators as spec;

use crate::kinds::{Pair, paired};
use crate::verdict::{binary_verdict, told};
use std::alloc::{AllocError, Global};
use xc_hold::kept;
use xc_text_place::Span;
use xc_tree::BinOp;
use xc_type_rule::{Fault, Found, against};

/// Two values that stand beside each other: a constant 0 is null beside a pointer.
pub(crate) fn evened(alloc: Global, a: Found, b: Found) -> Result<(Found, Found), AllocError>
    ensures { IfOk result (λ r. r ≡ (nulls.against b.known a, nulls.against (nulls.against b.known a).known b)) }
{
    let (a, b) = kept(against(alloc, &b.known, a), b)?;
    let (b, a) = kept(against(alloc, &a.known, b), a)?;
    Ok((a, b))
}

#[tactic(auto, unfolding(crate::specs::Operators::operated_part, crate::specs::Operators::operated_faults))]
fn operated(
    alloc: Global,
    span: Span,
    op: BinOp,
    a: Found,
    b: Found,
    first: &mut Option<Fault>,
) -> Result<Found, AllocError>
    ensures part { IfOk result (λ r. r ≡ spec.operated_part span op a b) }
    ensures first { OnOk result (first.new ≡ least_from first.old (spec.operated_faults span op a b)) }
{
    let verdict = binary_verdict(op, &a.known, &b.known);
    let ruling = told(verdict, a.known, b.known);
    paired(alloc, span, ruling, Pair::Binary(op), a.made, b.made, first)
}

/// An operator between two values.
#[tactic(auto, unfolding(crate::specs::Operators::beside, crate::specs::Operators::binary_part, crate::specs::Operators::binary_faults))]
pub fn binary(
    alloc: Global,
    span: Span,
    op: BinOp,
    a: Found,
    b: Found,
    first: &mut Option<Fault>,
) -> Result<Found, AllocError>
    ensures part { IfOk result (λ r. r ≡ spec.binary_part span op a b) }
    ensures first { OnOk result (first.new ≡ least_from first.old (spec.binary_faults span op a b)) }
{
    match op {
        BinOp::Lt | BinOp::Gt | BinOp::Le | BinOp::Ge | BinOp::Eq | BinOp::Ne => {
            let (a, b) = evened(alloc, a, b)?;
            operated(alloc, span, op, a, b, first)
        }
        _ => operated(alloc, span, op, a, b, first),
    }
}
