//! `&&` and `||`.

ghost use Rattle.std.specs.Prelude.{◌≡◌, IfOk, OnOk};
ghost use Rattle.xc_type_rule.specs.Least.{least_from};
ghost use Rattle.xc_type_rule_operators.specs.Operators as spec;

use crate::kinds::{Pair, paired};
use crate::rulings::logic_ruling;
use std::alloc::{AllocError, Global};
use xc_text_place::Span;
use xc_type_rule::{Fault, Found};

/// An operator that may leave its right operand unevaluated.
#[derive(Clone, Copy)]
pub enum Logic {
    /// `&&`
    And,
    /// `||`
    Or,
}

/// `&&` or `||` of two values.
#[tactic(auto, unfolding(crate::specs::Operators::logical_part, crate::specs::Operators::logical_faults))]
pub fn logical(
    alloc: Global,
    span: Span,
    op: Logic,
    a: Found,
    b: Found,
    first: &mut Option<Fault>,
) -> Result<Found, AllocError>
    ensures part { IfOk result (λ r. r ≡ spec.logical_part span op a b) }
    ensures first { OnOk result (first.new ≡ least_from first.old (spec.logical_faults span op a b)) }
{
    let ruling = logic_ruling(&a.known, &b.known);
    drop((a.known, b.known));
    paired(alloc, span, ruling, Pair::Logic(op), a.made, b.made, first)
}
