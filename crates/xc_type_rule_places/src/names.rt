//! Names.

ghost use Rattle.std.specs.Prelude.{◌≡◌, IfOk, OnOk};
ghost use Rattle.std.specs.Option.{option_copied};
ghost use Rattle.xc_type_rule.specs.Least.{least_from};
ghost use Rattle.xc_type_rule_places.specs.Places as spec;

use std::alloc::{AllocError, Global};
use xc_text_place::Span;
use xc_tree::ExprKind;
use xc_type_rule::{Fault, Found, Thing, declared_place, note_name, note_type, unknown_place};

/// A name that is not called, by what it stands for.
#[tactic(auto, using(xc_type_rule::proofs::Least::least_rules), unfolding(crate::specs::Places::name_part, crate::specs::Places::name_faults))]
pub fn name(
    alloc: Global,
    span: Span,
    thing: Option<&Thing>,
    first: &mut Option<Fault>,
) -> Result<Found, AllocError>
    ensures part { IfOk result (λ r. r ≡ spec.name_part span (option_copied thing.entry)) }
    ensures first { OnOk result (first.new ≡ least_from first.old (spec.name_faults span (option_copied thing.entry))) }
{
    match thing {
        Some(Thing::Global { number, ty }) => {
            let kind = Some(ExprKind::Global(*number));
            declared_place(alloc, span, ty.as_ref(), false, kind)
        }
        Some(Thing::Local { number, ty }) => {
            let kind = Some(ExprKind::Auto(*number));
            declared_place(alloc, span, ty.as_ref(), false, kind)
        }
        Some(Thing::Func { .. }) => {
            note_type(first, span);
            Ok(unknown_place())
        }
        None => {
            note_name(first, span);
            Ok(unknown_place())
        }
    }
}
