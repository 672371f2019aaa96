//! Copies of statements.

ghost use Rattle.std.specs.Prelude.{◌≡◌, IfOk};

use crate::copy::expr::copy_expr;
use crate::{Capture, Expr, Item, Pragmas, Stmt, StmtKind};
use sqlite_items::{Boxed, Items};
use std::alloc::{AllocError, Global};
use xc_hold::{both, kept};

/// A copy of what the pragmas before a loop set.
pub fn copy_pragmas(alloc: Global, pragmas: &Pragmas) -> Result<Pragmas, AllocError>
    ensures { IfOk result (λ r. r ≡ pragmas.now) }
{
    let nodep = Items::from_slice(alloc, pragmas.nodep.as_slice())?;
    let noalias = Items::from_slice(alloc, pragmas.noalias.as_slice())?;
    let given = Items::from_slice(alloc, pragmas.given.as_slice())?;
    Ok(Pragmas {
        marks: pragmas.marks,
        nodep,
        noalias,
        streams: pragmas.streams,
        schedule: pragmas.schedule,
        given,
    })
}

fn copy_maybe(alloc: Global, e: &Option<Expr>) -> Result<Option<Expr>, AllocError>
    ensures { IfOk result (λ r. r ≡ e.now) }
{
    match e {
        None => Ok(None),
        Some(e) => Ok(Some(copy_expr(alloc, e)?)),
    }
}

fn copy_init(alloc: Global, list: &Items<(u32, Expr)>) -> Result<Items<(u32, Expr)>, AllocError>
    ensures { IfOk result (λ r. r ≡ list.now) }
{
    let mut all = Items::new(alloc);
    for e in list.as_slice() {
        let copied = copy_expr(alloc, &e.1)?;
        all.push((e.0, copied))?;
    }
    Ok(all)
}

fn copy_capture(alloc: Global, capture: &Capture) -> Result<Capture, AllocError>
    ensures { IfOk result (λ r. r ≡ capture.now) }
{
    let from = copy_expr(alloc, &capture.from)?;
    Ok(Capture {
        from,
        local: capture.local,
    })
}

fn copy_captures(alloc: Global, list: &Items<Capture>) -> Result<Items<Capture>, AllocError>
    ensures { IfOk result (λ r. r ≡ list.now) }
{
    let mut all = Items::new(alloc);
    for c in list.as_slice() {
        all.push(copy_capture(alloc, c)?)?;
    }
    Ok(all)
}

// What a loop has beside its statements.
#[derive(Drop)]
struct Head {
    test: Option<Expr>,
    step: Option<Expr>,
    pragmas: Pragmas,
}

fn copy_head(
    alloc: Global,
    test: &Option<Expr>,
    step: &Option<Expr>,
    pragmas: &Pragmas,
) -> Result<Head, AllocError>
    ensures { IfOk result (λ r. (r.test ≡ test.now) × (r.step ≡ step.now) × (r.pragmas ≡ pragmas.now)) }
{
    let (test, step) = both(copy_maybe(alloc, test), copy_maybe(alloc, step))?;
    let (pragmas, (test, step)) = kept(copy_pragmas(alloc, pragmas), (test, step))?;
    Ok(Head {
        test,
        step,
        pragmas,
    })
}

/// A copy of a statement.
#[cycle(copy_statement)]
pub fn copy_stmt(alloc: Global, s: &Stmt) -> Result<Stmt, AllocError>
    ensures { IfOk result (λ r. r ≡ s.now) }
{
    let kind = copy_stmt_kind(alloc, &s.kind)?;
    Ok(Stmt { span: s.span, kind })
}

#[cycle(copy_statement)]
fn copy_boxed_stmt(alloc: Global, s: &Boxed<Stmt>) -> Result<Boxed<Stmt>, AllocError>
    ensures { IfOk result (λ r. r ≡ s.now) }
{
    Boxed::new(alloc, copy_stmt(alloc, s.get())?)
}

#[cycle(copy_statement)]
fn copy_block(alloc: Global, list: &Items<Stmt>) -> Result<Items<Stmt>, AllocError>
    ensures { IfOk result (λ r. r ≡ list.now) }
{
    let mut all = Items::new(alloc);
    for s in list.as_slice() {
        all.push(copy_stmt(alloc, s)?)?;
    }
    Ok(all)
}

#[cycle(copy_statement)]
fn copy_item(alloc: Global, item: &Item) -> Result<Item, AllocError>
    ensures { IfOk result (λ r. r ≡ item.now) }
{
    match item {
        Item::At(word) => Ok(Item::At(*word)),
        Item::Other => Ok(Item::Other),
        Item::Do(s) => Ok(Item::Do(copy_stmt(alloc, s)?)),
    }
}

#[cycle(copy_statement)]
fn copy_items(alloc: Global, list: &Items<Item>) -> Result<Items<Item>, AllocError>
    ensures { IfOk result (λ r. r ≡ list.now) }
{
    let mut all = Items::new(alloc);
    for item in list.as_slice() {
        all.push(copy_item(alloc, item)?)?;
    }
    Ok(all)
}

// A copy of a `switch`.
#[cycle(copy_statement)]
fn copy_switch(alloc: Global, items: &Items<Item>, value: &Expr) -> Result<StmtKind, AllocError>
    ensures { IfOk result (λ r. r ≡ StmtKind.Switch value.now items.now) }
{
    let (items, value) = both(copy_items(alloc, items), copy_expr(alloc, value))?;
    Ok(StmtKind::Switch { value, items })
}

#[cycle(copy_statement)]
fn copy_stmt_kind(alloc: Global, kind: &StmtKind) -> Result<StmtKind, AllocError>
    ensures { IfOk result (λ r. r ≡ kind.now) }
{
    match kind {
        StmtKind::Empty => Ok(StmtKind::Empty),
        StmtKind::Declare { local, init } => Ok(StmtKind::Declare {
            local: *local,
            init: copy_init(alloc, init)?,
        }),
        StmtKind::Eval(e) => Ok(StmtKind::Eval(copy_expr(alloc, e)?)),
        StmtKind::Block(all) => Ok(StmtKind::Block(copy_block(alloc, all)?)),
        StmtKind::If {
            test,
            then,
            other: None,
        } => {
            let (then, test) = both(copy_boxed_stmt(alloc, then), copy_expr(alloc, test))?;
            Ok(StmtKind::If {
                test,
                then,
                other: None,
            })
        }
        StmtKind::If {
            test,
            then,
            other: Some(other),
        } => {
            let (then, other) = both(copy_boxed_stmt(alloc, then), copy_boxed_stmt(alloc, other))?;
            let (test, (then, other)) = kept(copy_expr(alloc, test), (then, other))?;
            Ok(StmtKind::If {
                test,
                then,
                other: Some(other),
            })
        }
        StmtKind::Loop {
            id,
            form,
            init,
            test,
            step,
            body,
            pragmas,
        } => {
            let (init, body) = both(copy_block(alloc, init), copy_boxed_stmt(alloc, body))?;
            let (head, (init, body)) = kept(copy_head(alloc, test, step, pragmas), (init, body))?;
            let Head {
                test,
                step,
                pragmas,
            } = head;
            Ok(StmtKind::Loop {
                id: *id,
                form: *form,
                init,
                test,
                step,
                body,
                pragmas,
            })
        }
        StmtKind::Switch { value, items } => copy_switch(alloc, items, value),
        StmtKind::Return(e) => Ok(StmtKind::Return(copy_maybe(alloc, e)?)),
        StmtKind::Break => Ok(StmtKind::Break),
        StmtKind::Continue => Ok(StmtKind::Continue),
        StmtKind::Future {
            place,
            captures,
            body,
        } => {
            let (body, place) = both(copy_boxed_stmt(alloc, body), copy_expr(alloc, place))?;
            let (captures, (body, place)) = kept(copy_captures(alloc, captures), (body, place))?;
            Ok(StmtKind::Future {
                place,
                captures,
                body,
            })
        }
    }
}
