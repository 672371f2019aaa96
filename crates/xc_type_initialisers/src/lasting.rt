//! What expressions give objects at file scope.

ghost use Rattle.std.specs.Prelude.{◌≡◌, IfOk, OnOk};
ghost use Rattle.std.specs.Option.{option_copied};
ghost use Rattle.xc_type_rule.specs.Least.{least_from, fault_unless};
ghost use Rattle.xc_type_constants.specs.Pieces.{constant_value, constant_faults};
ghost use Rattle.xc_type_initialiser_objects.specs.Words as words;
ghost use Rattle.xc_type_expressions.specs.Judged.{judged, span_in};
ghost use Rattle.xc_type_initialisers.specs.Forms.{form_in};
ghost use Rattle.xc_type_initialisers.specs.Lasting as spec;

use crate::forms::form_of;
use std::alloc::{AllocError, Global};
use xc_hold::kept;
use xc_raw::Raw;
use xc_raw_parts::span_of;
use xc_tree::{Expr, Ty};
use xc_type_constants::constant;
use xc_type_expressions::Text;
use xc_type_initialiser_objects::{note_type_unless, number_made, word_of};
use xc_type_rule::{Fault, base_of, is_number};

/// The type of what a scalar object holds.
pub(crate) fn held(ty: &Option<Ty>) -> Option<&Ty>
    ensures { option_copied result ≡ spec.held ty.now }
{
    match ty {
        None => None,
        Some(ty) => base_of(ty),
    }
}

// Whether an expression breaks no rule of constants.
#[tactic(auto, using(crate::proofs::Turns::leaf_rules))]
fn is_constant(alloc: Global, text: &Text, node: &Raw) -> Result<bool, AllocError>
    ensures { IfOk result (λ r. r ≡ spec.is_constant (judged text.now node.now).constant) }
{
    let mut told: Option<Fault> = None;
    let _ = constant(alloc, text.source, text.tokens, text.texts, node, &mut told)?;
    Ok(told.is_none())
}

// Whether an expression may give a pointer at file scope. One with a fault is judged by its text alone.
#[tactic(auto, using(crate::proofs::Turns::leaf_rules))]
fn may_point(
    alloc: Global,
    text: &Text,
    node: &Raw,
    made: &Option<Expr>,
) -> Result<bool, AllocError>
    ensures { IfOk result (λ r. r ≡ spec.may_point (form_in text.now node.now) (judged text.now node.now).constant made.now) }
{
    match made {
        Some(e) => Ok(word_of(e).is_some()),
        None => {
            if form_of(text, node).pointer {
                return Ok(true);
            }
            Ok(is_constant(alloc, text, node)?)
        }
    }
}

// The constant that stands for the number that an expression makes.
#[tactic(auto, using(crate::proofs::Turns::leaf_rules))]
fn number(
    alloc: Global,
    text: &Text,
    node: &Raw,
    made: Option<Expr>,
    first: &mut Option<Fault>,
) -> Result<Option<Expr>, AllocError>
    ensures made { IfOk result (λ r. r ≡ words.number_made (constant_value (judged text.now node.now).constant) made) }
    ensures first { OnOk result (first.new ≡ least_from first.old (constant_faults (judged text.now node.now).constant)) }
{
    let value = constant(alloc, text.source, text.tokens, text.texts, node, first);
    let (value, made) = kept(value, made)?;
    Ok(number_made(value, made))
}

#[tactic(auto, using(crate::proofs::Turns::leaf_rules))]
fn note_pointer(
    alloc: Global,
    text: &Text,
    node: &Raw,
    made: &Option<Expr>,
    first: &mut Option<Fault>,
) -> Result<(), AllocError>
    ensures { OnOk result (first.new ≡ least_from first.old (fault_unless (spec.may_point (form_in text.now node.now) (judged text.now node.now).constant made.now) (span_in text.now node.now))) }
{
    let fine = may_point(alloc, text, node, made)?;
    note_type_unless(fine, span_of(text.tokens, node), first);
    Ok(())
}

/// What an expression that makes this gives at file scope to an object that holds this type.
#[tactic(auto, using(crate::proofs::Turns::leaf_rules))]
pub(crate) fn lasting(
    alloc: Global,
    text: &Text,
    node: &Raw,
    to: Option<&Ty>,
    made: Option<Expr>,
    first: &mut Option<Fault>,
) -> Result<Option<Expr>, AllocError>
    ensures made { IfOk result (λ r. r ≡ spec.lasting_made (option_copied to.entry) (judged text.now node.now).constant made) }
    ensures first { OnOk result (first.new ≡ least_from first.old (spec.lasting_faults (option_copied to.entry) (span_in text.now node.now) (form_in text.now node.now) (judged text.now node.now).constant made)) }
{
    match to {
        None => Ok(made),
        Some(to) => {
            if is_number(to) {
                return Ok(number(alloc, text, node, made, first)?);
            }
            let noted = note_pointer(alloc, text, node, &made, first);
            let (_, made) = kept(noted, made)?;
            Ok(made)
        }
    }
}
