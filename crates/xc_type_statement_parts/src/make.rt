//! How statements are put together.

ghost use Rattle.std.specs.Prelude.{◌≡◌, IfOk};
ghost use Rattle.xc_type_statement_parts.specs.Making as spec;

use crate::pragmas::Begun;
use sqlite_items::{Boxed, Items};
use std::alloc::{AllocError, Global};
use xc_hold::kept;
use xc_text_place::Span;
use xc_tree::{Capture, Expr, LoopForm, Stmt, StmtKind};

/// The clauses of a loop: what stands first, the test and the step.
#[derive(Drop)]
pub struct Header {
    pub init: Items<Stmt>,
    pub test: Option<Expr>,
    pub step: Option<Expr>,
}

#[tactic(auto, unfolding(crate::specs::Making::one))]
pub fn one<T: Drop>(alloc: Global, made: Option<T>) -> Result<Option<Items<T>>, AllocError>
    ensures { IfOk result (λ r. r ≡ spec.one made) }
{
    match made {
        None => Ok(None),
        Some(made) => {
            let mut all = Items::new(alloc);
            all.push(made)?;
            Ok(Some(all))
        }
    }
}

#[tactic(auto, unfolding(crate::specs::Making::followed))]
pub fn followed<T: Drop>(
    all: Option<Items<T>>,
    more: Option<Items<T>>,
) -> Result<Option<Items<T>>, AllocError>
    ensures { IfOk result (λ r. r ≡ spec.followed all more) }
{
    match (all, more) {
        (Some(all), Some(more)) => {
            let mut all = all;
            all.append(more)?;
            Ok(Some(all))
        }
        (None, None) => Ok(None),
        (None, Some(_)) => Ok(None),
        (Some(_), None) => Ok(None),
    }
}

/// One more behind the others.
pub(crate) fn with_one<T: Drop>(
    alloc: Global,
    all: Option<Items<T>>,
    made: Option<T>,
) -> Result<Option<Items<T>>, AllocError>
    ensures { IfOk result (λ r. r ≡ spec.followed all (spec.one made)) }
{
    let (more, all) = kept(one(alloc, made), all)?;
    followed(all, more)
}

#[tactic(auto, unfolding(crate::specs::Making::single))]
pub fn single(all: Option<Items<Stmt>>) -> Option<Stmt>
    ensures { result ≡ spec.single all }
{
    match all {
        None => None,
        Some(all) => {
            let mut all = all;
            if all.len() != 1 {
                return None;
            }
            all.pop()
        }
    }
}

#[tactic(auto, unfolding(crate::specs::Making::eval_made))]
pub fn eval_made(span: Span, e: Option<Expr>) -> Option<Stmt>
    ensures { result ≡ spec.eval_made span e }
{
    match e {
        None => None,
        Some(e) => Some(Stmt {
            span,
            kind: StmtKind::Eval(e),
        }),
    }
}

#[tactic(auto, unfolding(crate::specs::Making::block_made))]
pub fn block_made(span: Span, all: Option<Items<Stmt>>) -> Option<Stmt>
    ensures { result ≡ spec.block_made span all }
{
    match all {
        None => None,
        Some(all) => Some(Stmt {
            span,
            kind: StmtKind::Block(all),
        }),
    }
}

fn boxed(alloc: Global, stmt: Option<Stmt>) -> Result<Option<Boxed<Stmt>>, AllocError>
    ensures { IfOk result (λ r. r ≡ stmt) }
{
    match stmt {
        None => Ok(None),
        Some(stmt) => Ok(Some(Boxed::new(alloc, stmt)?)),
    }
}

fn boxed_other(
    alloc: Global,
    other: Option<Option<Stmt>>,
) -> Result<Option<Option<Boxed<Stmt>>>, AllocError>
    ensures { IfOk result (λ r. r ≡ other) }
{
    match other {
        None => Ok(None),
        Some(other) => Ok(Some(boxed(alloc, other)?)),
    }
}

#[tactic(auto, unfolding(crate::specs::Making::if_made))]
fn if_of(
    span: Span,
    test: Option<Expr>,
    then: Option<Boxed<Stmt>>,
    other: Option<Option<Boxed<Stmt>>>,
) -> Option<Stmt>
    ensures { result ≡ spec.if_made span test then other }
{
    match test.zip(then).zip(other) {
        None => None,
        Some(((test, then), other)) => Some(Stmt {
            span,
            kind: StmtKind::If { test, then, other },
        }),
    }
}

pub fn if_made(
    alloc: Global,
    span: Span,
    test: Option<Expr>,
    then: Option<Stmt>,
    other: Option<Option<Stmt>>,
) -> Result<Option<Stmt>, AllocError>
    ensures { IfOk result (λ r. r ≡ spec.if_made span test then other) }
{
    let (then, (test, other)) = kept(boxed(alloc, then), (test, other))?;
    if_then(alloc, span, test, then, other)
}

// An `if` whose first branch has its place.
fn if_then(
    alloc: Global,
    span: Span,
    test: Option<Expr>,
    then: Option<Boxed<Stmt>>,
    other: Option<Option<Stmt>>,
) -> Result<Option<Stmt>, AllocError>
    ensures { IfOk result (λ r. r ≡ spec.if_made span test then other) }
{
    let (other, (test, then)) = kept(boxed_other(alloc, other), (test, then))?;
    Ok(if_of(span, test, then, other))
}

#[tactic(auto, unfolding(crate::specs::Making::headed))]
pub fn headed(
    init: Option<Items<Stmt>>,
    test: Option<Option<Expr>>,
    step: Option<Option<Expr>>,
) -> Option<Header>
    ensures { result ≡ spec.headed init test step }
{
    match init.zip(test.zip(step)) {
        None => None,
        Some((init, (test, step))) => Some(Header { init, test, step }),
    }
}

#[tactic(auto, unfolding(crate::specs::Making::test_alone, crate::specs::Making::headed))]
pub fn test_alone(alloc: Global, test: Option<Expr>) -> Option<Header>
    ensures { result ≡ spec.test_alone test }
{
    match test {
        None => None,
        Some(test) => Some(Header {
            init: Items::new(alloc),
            test: Some(test),
            step: None,
        }),
    }
}

pub fn loop_made(
    alloc: Global,
    span: Span,
    form: LoopForm,
    begun: Begun,
    header: Option<Header>,
    body: Option<Stmt>,
) -> Result<Option<Stmt>, AllocError>
    ensures { IfOk result (λ r. r ≡ spec.loop_made span form begun header body) }
{
    let (body, (begun, header)) = kept(boxed(alloc, body), (begun, header))?;
    Ok(loop_of(span, form, begun, header, body))
}

#[tactic(auto, unfolding(crate::specs::Making::loop_made))]
fn loop_of(
    span: Span,
    form: LoopForm,
    begun: Begun,
    header: Option<Header>,
    body: Option<Boxed<Stmt>>,
) -> Option<Stmt>
    ensures { result ≡ spec.loop_made span form begun header body }
{
    match header.zip(body) {
        None => {
            drop(begun);
            None
        }
        Some((header, body)) => {
            let Header { init, test, step } = header;
            let Begun { id, pragmas } = begun;
            Some(Stmt {
                span,
                kind: StmtKind::Loop {
                    id,
                    form,
                    init,
                    test,
                    step,
                    body,
                    pragmas,
                },
            })
        }
    }
}

pub fn future_made(
    alloc: Global,
    span: Span,
    place: Option<Expr>,
    captures: Option<Items<Capture>>,
    body: Option<Stmt>,
) -> Result<Option<Stmt>, AllocError>
    ensures { IfOk result (λ r. r ≡ spec.future_made span place captures body) }
{
    let (body, (place, captures)) = kept(boxed(alloc, body), (place, captures))?;
    Ok(future_of(span, place, captures, body))
}

#[tactic(auto, unfolding(crate::specs::Making::future_made))]
fn future_of(
    span: Span,
    place: Option<Expr>,
    captures: Option<Items<Capture>>,
    body: Option<Boxed<Stmt>>,
) -> Option<Stmt>
    ensures { result ≡ spec.future_made span place captures body }
{
    match place.zip(captures).zip(body) {
        None => None,
        Some(((place, captures), body)) => Some(Stmt {
            span,
            kind: StmtKind::Future {
                place,
                captures,
                body,
            },
        }),
    }
}
