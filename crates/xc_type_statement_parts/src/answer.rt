//! What a `return` gives.

ghost use Rattle.std.specs.Prelude.{◌≡◌, IfOk, OnOk};
ghost use Rattle.xc_type_rule.specs.Least.{least_from};
ghost use Rattle.xc_type_rule_operators.specs.Operators.{suited};
ghost use Rattle.xc_type_statement_parts.specs.Answers as spec;

use std::alloc::{AllocError, Global};
use xc_text_place::Span;
use xc_tree::{Stmt, StmtKind, Ty};
use xc_type_rule::{Fault, Found, Known, given, is_void, may_be_plain, may_fit, note_type};

/// What a `return` gives. The type is none where it is unknown because of a fault.
#[derive(Drop)]
pub enum Answer {
    /// The result of a function, of type `Void` where it has none.
    Function(Option<Ty>),
    /// What the body of a `future` statement leaves at the place.
    Future(Option<Ty>),
}

fn answer_ty(answer: &Answer) -> &Option<Ty>
    ensures { result.now ≡ spec.answer_ty answer.now }
{
    match answer {
        Answer::Function(ty) => ty,
        Answer::Future(ty) => ty,
    }
}

fn may_be_absent(answer: &Answer) -> bool
    ensures { result ≡ spec.may_be_absent answer.now }
{
    match answer {
        Answer::Function(None) => true,
        Answer::Function(Some(ty)) => is_void(ty),
        Answer::Future(_) => false,
    }
}

fn may_be_given(ty: &Option<Ty>, value: &Known) -> bool
    ensures { result ≡ spec.may_be_given ty.now value.now }
{
    match ty {
        None => may_be_plain(value),
        Some(ty) => !is_void(ty) && may_fit(ty, value),
    }
}

#[tactic(auto, unfolding(xc_type_rule_operators::specs::Operators::suited))]
fn suited(alloc: Global, ty: &Option<Ty>, value: Found) -> Result<Found, AllocError>
    ensures { IfOk result (λ r. r ≡ suited ty.now value) }
{
    match ty {
        None => Ok(value),
        Some(ty) => given(alloc, ty, value),
    }
}

/// `return;`
#[tactic(auto, using(xc_type_rule::proofs::Least::least_rules))]
pub fn returned_none(span: Span, answer: &Answer, first: &mut Option<Fault>) -> Option<Stmt>
    ensures part { result ≡ spec.absent_part span }
    ensures first { first.new ≡ least_from first.old (spec.absent_faults span answer.now) }
{
    if !may_be_absent(answer) {
        note_type(first, span);
    }
    Some(Stmt {
        span,
        kind: StmtKind::Return(None),
    })
}

/// `return` of a value.
#[tactic(auto, using(xc_type_rule::proofs::Least::least_rules))]
pub fn returned(
    alloc: Global,
    span: Span,
    answer: &Answer,
    value: Found,
    first: &mut Option<Fault>,
) -> Result<Option<Stmt>, AllocError>
    ensures part { IfOk result (λ r. r ≡ spec.return_part span answer.now value) }
    ensures first { OnOk result (first.new ≡ least_from first.old (spec.return_faults span answer.now value)) }
{
    let ty = answer_ty(answer);
    let Found { known, made } = suited(alloc, ty, value)?;
    if !may_be_given(ty, &known) {
        note_type(first, span);
    }
    drop(known);
    match made {
        None => Ok(None),
        Some(e) => Ok(Some(Stmt {
            span,
            kind: StmtKind::Return(Some(e)),
        })),
    }
}
