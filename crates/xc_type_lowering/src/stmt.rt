//! Statements.

ghost use Rattle.std.specs.Prelude.{◌≡◌, map, option_map, IfOk};
ghost use Rattle.xc_type_lowering.specs.Lowered.{init_with, capture_with, lowered, lowered_stmt};
ghost use Rattle.xc_type_lowering.specs.InnerLowered.{lowered_stmt_kind, lowered_item};

use crate::expr::make_expr;
use sqlite_items::{Boxed, Items};
use std::alloc::{AllocError, Global};
use xc_hold::{both, kept};
use xc_tree::{Capture, Expr, Item, Pragmas, Stmt, StmtKind, copy_pragmas};

fn lower_maybe(
    alloc: Global,
    addressed: &[bool],
    e: &Option<Expr>,
) -> Result<Option<Expr>, AllocError>
    ensures { IfOk result (λ r. r ≡ option_map (lowered addressed.now) e.now) }
{
    match e {
        None => Ok(None),
        Some(e) => Ok(Some(make_expr(alloc, addressed, e)?)),
    }
}

fn lower_init(
    alloc: Global,
    addressed: &[bool],
    list: &Items<(u32, Expr)>,
) -> Result<Items<(u32, Expr)>, AllocError>
    ensures { IfOk result (λ r. r ≡ map (init_with (lowered addressed.now)) list.now) }
{
    let mut all = Items::new(alloc);
    for e in list.as_slice() {
        let made = make_expr(alloc, addressed, &e.1)?;
        all.push((e.0, made))?;
    }
    Ok(all)
}

fn lower_capture(
    alloc: Global,
    addressed: &[bool],
    capture: &Capture,
) -> Result<Capture, AllocError>
    ensures { IfOk result (λ r. r ≡ capture_with (lowered addressed.now) capture.now) }
{
    let from = make_expr(alloc, addressed, &capture.from)?;
    Ok(Capture {
        from,
        local: capture.local,
    })
}

fn lower_captures(
    alloc: Global,
    addressed: &[bool],
    list: &Items<Capture>,
) -> Result<Items<Capture>, AllocError>
    ensures { IfOk result (λ r. r ≡ map (capture_with (lowered addressed.now)) list.now) }
{
    let mut all = Items::new(alloc);
    for c in list.as_slice() {
        all.push(lower_capture(alloc, addressed, c)?)?;
    }
    Ok(all)
}

// What a loop has beside its statements.
#[derive(Drop)]
struct Head {
    test: Option<Expr>,
    step: Option<Expr>,
    pragmas: Pragmas,
}

fn lower_head(
    alloc: Global,
    addressed: &[bool],
    test: &Option<Expr>,
    step: &Option<Expr>,
    pragmas: &Pragmas,
) -> Result<Head, AllocError>
    ensures { IfOk result (λ r. (r.test ≡ option_map (lowered addressed.now) test.now)
        × (r.step ≡ option_map (lowered addressed.now) step.now) × (r.pragmas ≡ pragmas.now)) }
{
    let (test, step) = both(
        lower_maybe(alloc, addressed, test),
        lower_maybe(alloc, addressed, step),
    )?;
    let (pragmas, (test, step)) = kept(copy_pragmas(alloc, pragmas), (test, step))?;
    Ok(Head {
        test,
        step,
        pragmas,
    })
}

/// The lowered statement.
#[cycle(lower_statement)]
pub fn make_stmt(alloc: Global, addressed: &[bool], s: &Stmt) -> Result<Stmt, AllocError>
    ensures { IfOk result (λ r. r ≡ lowered_stmt addressed.now s.now) }
{
    let kind = lower_stmt_kind(alloc, addressed, &s.kind)?;
    Ok(Stmt { span: s.span, kind })
}

#[cycle(lower_statement)]
fn lower_boxed_stmt(
    alloc: Global,
    addressed: &[bool],
    s: &Boxed<Stmt>,
) -> Result<Boxed<Stmt>, AllocError>
    ensures { IfOk result (λ r. r ≡ lowered_stmt addressed.now s.now) }
{
    Boxed::new(alloc, make_stmt(alloc, addressed, s.get())?)
}

#[cycle(lower_statement)]
fn lower_block(
    alloc: Global,
    addressed: &[bool],
    list: &Items<Stmt>,
) -> Result<Items<Stmt>, AllocError>
    ensures { IfOk result (λ r. r ≡ map (lowered_stmt addressed.now) list.now) }
{
    let mut all = Items::new(alloc);
    for s in list.as_slice() {
        all.push(make_stmt(alloc, addressed, s)?)?;
    }
    Ok(all)
}

#[cycle(lower_statement)]
fn lower_item(alloc: Global, addressed: &[bool], item: &Item) -> Result<Item, AllocError>
    ensures { IfOk result (λ r. r ≡ lowered_item addressed.now item.now) }
{
    match item {
        Item::At(word) => Ok(Item::At(*word)),
        Item::Other => Ok(Item::Other),
        Item::Do(s) => Ok(Item::Do(make_stmt(alloc, addressed, s)?)),
    }
}

#[cycle(lower_statement)]
fn lower_items(
    alloc: Global,
    addressed: &[bool],
    list: &Items<Item>,
) -> Result<Items<Item>, AllocError>
    ensures { IfOk result (λ r. r ≡ map (lowered_item addressed.now) list.now) }
{
    let mut all = Items::new(alloc);
    for item in list.as_slice() {
        all.push(lower_item(alloc, addressed, item)?)?;
    }
    Ok(all)
}

// The lowered `switch`.
#[cycle(lower_statement)]
fn lower_switch(
    alloc: Global,
    addressed: &[bool],
    items: &Items<Item>,
    value: &Expr,
) -> Result<StmtKind, AllocError>
    ensures { IfOk result (λ r. r ≡ StmtKind.Switch (lowered addressed.now value.now) (map (lowered_item addressed.now) items.now)) }
{
    let (items, value) = both(
        lower_items(alloc, addressed, items),
        make_expr(alloc, addressed, value),
    )?;
    Ok(StmtKind::Switch { value, items })
}

#[cycle(lower_statement)]
fn lower_stmt_kind(
    alloc: Global,
    addressed: &[bool],
    kind: &StmtKind,
) -> Result<StmtKind, AllocError>
    ensures { IfOk result (λ r. r ≡ lowered_stmt_kind addressed.now kind.now) }
{
    match kind {
        StmtKind::Empty => Ok(StmtKind::Empty),
        StmtKind::Declare { local, init } => Ok(StmtKind::Declare {
            local: *local,
            init: lower_init(alloc, addressed, init)?,
        }),
        StmtKind::Eval(e) => Ok(StmtKind::Eval(make_expr(alloc, addressed, e)?)),
        StmtKind::Block(all) => Ok(StmtKind::Block(lower_block(alloc, addressed, all)?)),
        StmtKind::If {
            test,
            then,
            other: None,
        } => {
            let (then, test) = both(
                lower_boxed_stmt(alloc, addressed, then),
                make_expr(alloc, addressed, test),
            )?;
            Ok(StmtKind::If {
                test,
                then,
                other: None,
            })
        }
        StmtKind::If {
            test,
            then,
            other: Some(other),
        } => {
            let (then, other) = both(
                lower_boxed_stmt(alloc, addressed, then),
                lower_boxed_stmt(alloc, addressed, other),
            )?;
            let (test, (then, other)) = kept(make_expr(alloc, addressed, test), (then, other))?;
            Ok(StmtKind::If {
                test,
                then,
                other: Some(other),
            })
        }
        StmtKind::Loop {
            id,
            form,
            init,
            test,
            step,
            body,
            pragmas,
        } => {
            let init = lower_block(alloc, addressed, init)?;
            let body = lower_boxed_stmt(alloc, addressed, body)?;
            let head = lower_head(alloc, addressed, test, step, pragmas)?;
            let Head {
                test,
                step,
                pragmas,
            } = head;
            Ok(StmtKind::Loop {
                id: *id,
                form: *form,
                init,
                test,
                step,
                body,
                pragmas,
            })
        }
        StmtKind::Switch { value, items } => lower_switch(alloc, addressed, items, value),
        StmtKind::Return(e) => Ok(StmtKind::Return(lower_maybe(alloc, addressed, e)?)),
        StmtKind::Break => Ok(StmtKind::Break),
        StmtKind::Continue => Ok(StmtKind::Continue),
        StmtKind::Future {
            place,
            captures,
            body,
        } => {
            let (body, place) = both(
                lower_boxed_stmt(alloc, addressed, body),
                make_expr(alloc, addressed, place),
            )?;
            let captures = lower_captures(alloc, addressed, captures);
            let (captures, (body, place)) = kept(captures, (body, place))?;
            Ok(StmtKind::Future {
                place,
                captures,
                body,
            })
        }
    }
}
