//! Statements of the loop, and the loop.

ghost use Rattle.std.specs.Prelude.{◌≡◌, ◌++◌, [], ◌∷◌, IsTrue, OnOk, IfOk};
ghost use Rattle.xc_form.specs.Normal.{is_loop};
ghost use Rattle.xc_form_stable.specs.Stable.{has_threads, has_address, is_late, maybe_breaches, test_breaches, inits_breaches, captures_breaches, stmt_breaches, first_of, first_breach, alone, first_unstable};
ghost use Rattle.xc_form_stable.specs.InnerStable.{frame_of, stmts_breaches, item_breaches, items_breaches};

use crate::breach::{Breach, Rule};
use crate::inner::{collect_lower, collect_upper, loop_rule, put_some, with_index};
use crate::walk::{Walk, collect_expr, put, put_if};
use sqlite_items::Items;
use std::alloc::{AllocError, Global};
use xc_form::{effects_of, is_concurrent, normal_form};
use xc_tree::{Capture, Expr, Item, Local, LoopForm, Stmt, StmtKind};

fn has_address(w: &Walk, x: u32) -> bool
    ensures { result ≡ has_address (frame_of w.now) x }
{
    match w.locals.get(x as usize) {
        Some(local) => local.addressed,
        None => false,
    }
}

fn is_late(form: LoopForm) -> bool
    ensures { result ≡ is_late form }
{
    match form {
        LoopForm::Do => true,
        LoopForm::While | LoopForm::For => false,
    }
}

fn collect_maybe(
    out: &mut Vec<Breach>,
    w: &Walk,
    over: &[u32],
    e: &Option<Expr>,
) -> Result<(), AllocError>
    ensures { OnOk result (out.new.items ≡ out.old.items ++ maybe_breaches (frame_of w.now) over.now e.now) }
{
    match e {
        None => Ok(()),
        Some(e) => collect_expr(out, w, over, e),
    }
}

fn collect_test(
    out: &mut Vec<Breach>,
    w: &Walk,
    over: &[u32],
    test: &Option<Expr>,
) -> Result<(), AllocError>
    ensures { OnOk result (out.new.items ≡ out.old.items ++ test_breaches (frame_of w.now) over.now test.now) }
{
    collect_maybe(out, w, over, test)?;
    collect_upper(out, w, over, test)
}

fn collect_inits(
    out: &mut Vec<Breach>,
    w: &Walk,
    over: &[u32],
    list: &[(u32, Expr)],
) -> Result<(), AllocError>
    ensures { OnOk result (out.new.items ≡ out.old.items ++ inits_breaches (frame_of w.now) over.now list.now) }
{
    for init in list {
        collect_expr(out, w, over, &init.1)?;
    }
    Ok(())
}

fn collect_captures(
    out: &mut Vec<Breach>,
    w: &Walk,
    over: &[u32],
    list: &[Capture],
) -> Result<(), AllocError>
    ensures { OnOk result (out.new.items ≡ out.old.items ++ captures_breaches (frame_of w.now) over.now list.now) }
{
    for capture in list {
        collect_expr(out, w, over, &capture.from)?;
    }
    Ok(())
}

#[tactic(auto, unfolding(crate::specs::Stable::has_threads))]
fn has_threads(w: &Walk, s: &Stmt) -> Result<bool, AllocError>
    requires { IsTrue (is_loop s.now) }
    ensures { IfOk result (λ r. r ≡ has_threads (frame_of w.now) s.now) }
{
    is_concurrent(w.alloc, w.pures, w.locals, s)
}

#[cycle(statement)]
fn collect_inner(out: &mut Vec<Breach>, w: &Walk, over: &[u32], s: &Stmt) -> Result<(), AllocError>
    requires { IsTrue (is_loop s.now) }
    ensures { OnOk result (out.new.items ≡ out.old.items ++ stmt_breaches (frame_of w.now) over.now s.now) }
{
    let StmtKind::Loop {
        id: _,
        form,
        init,
        test,
        step,
        body,
        pragmas: _,
    } = &s.kind
    else {
        unreachable!()
    };
    let header = normal_form(w.alloc, w.pures, w.locals, s)?;
    let is_threads = has_threads(w, s)?;
    let inside = with_index(w.alloc, over, header)?;
    put_some(
        out,
        loop_rule(w, is_threads, header, init.as_slice(), test),
        s.span,
    )?;
    collect_stmts(out, w, over, init.as_slice())?;
    collect_lower(out, w, over, init.as_slice())?;
    if is_late(*form) {
        collect_stmt(out, w, inside.as_slice(), body.get())?;
        collect_test(out, w, over, test)?;
        collect_maybe(out, w, over, step)
    } else {
        collect_test(out, w, over, test)?;
        collect_maybe(out, w, over, step)?;
        collect_stmt(out, w, inside.as_slice(), body.get())
    }
}

#[cycle(statement)]
fn collect_stmt(out: &mut Vec<Breach>, w: &Walk, over: &[u32], s: &Stmt) -> Result<(), AllocError>
    ensures { OnOk result (out.new.items ≡ out.old.items ++ stmt_breaches (frame_of w.now) over.now s.now) }
{
    match &s.kind {
        StmtKind::Empty | StmtKind::Break | StmtKind::Continue => Ok(()),
        StmtKind::Declare { local, init } => {
            put_if(out, has_address(w, *local), Rule::Call, s.span)?;
            collect_inits(out, w, over, init.as_slice())
        }
        StmtKind::Eval(e) => collect_expr(out, w, over, e),
        StmtKind::Block(all) => collect_stmts(out, w, over, all.as_slice()),
        StmtKind::If {
            test,
            then,
            other: None,
        } => {
            collect_expr(out, w, over, test)?;
            collect_stmt(out, w, over, then.get())
        }
        StmtKind::If {
            test,
            then,
            other: Some(other),
        } => {
            collect_expr(out, w, over, test)?;
            collect_stmt(out, w, over, then.get())?;
            collect_stmt(out, w, over, other.get())
        }
        StmtKind::Loop {
            id: _,
            form: _,
            init: _,
            test: _,
            step: _,
            body: _,
            pragmas: _,
        } => collect_inner(out, w, over, s),
        StmtKind::Switch { value, items } => {
            collect_expr(out, w, over, value)?;
            collect_items(out, w, over, items.as_slice())
        }
        StmtKind::Return(e) => collect_maybe(out, w, over, e),
        StmtKind::Future {
            place,
            captures,
            body,
        } => {
            put(out, Rule::Sync, s.span)?;
            collect_expr(out, w, over, place)?;
            collect_captures(out, w, over, captures.as_slice())?;
            collect_stmt(out, w, over, body.get())
        }
    }
}

#[cycle(statement)]
fn collect_stmts(
    out: &mut Vec<Breach>,
    w: &Walk,
    over: &[u32],
    list: &[Stmt],
) -> Result<(), AllocError>
    ensures { OnOk result (out.new.items ≡ out.old.items ++ stmts_breaches (frame_of w.now) over.now list.now) }
{
    for s in list {
        collect_stmt(out, w, over, s)?;
    }
    Ok(())
}

#[cycle(statement)]
fn collect_item(
    out: &mut Vec<Breach>,
    w: &Walk,
    over: &[u32],
    item: &Item,
) -> Result<(), AllocError>
    ensures { OnOk result (out.new.items ≡ out.old.items ++ item_breaches (frame_of w.now) over.now item.now) }
{
    match item {
        Item::At(_) | Item::Other => Ok(()),
        Item::Do(s) => collect_stmt(out, w, over, s),
    }
}

#[cycle(statement)]
fn collect_items(
    out: &mut Vec<Breach>,
    w: &Walk,
    over: &[u32],
    list: &[Item],
) -> Result<(), AllocError>
    ensures { OnOk result (out.new.items ≡ out.old.items ++ items_breaches (frame_of w.now) over.now list.now) }
{
    for item in list {
        collect_item(out, w, over, item)?;
    }
    Ok(())
}

fn first_of(rule: Rule, breaches: &[Breach]) -> Option<Breach>
    ensures { result ≡ first_of rule breaches.now }
{
    for breach in breaches {
        if breach.rule == rule {
            return Some(*breach);
        }
    }
    None
}

fn first_breach(all: &[Breach], rest: &[Breach]) -> Option<Breach>
    ensures { result ≡ first_breach all.now rest.now }
{
    if let Some(breach) = first_of(Rule::Sync, all) {
        return Some(breach);
    }
    if let Some(breach) = first_of(Rule::Call, all) {
        return Some(breach);
    }
    first_of(Rule::Address, rest)
}

fn alone(alloc: Global, index: Option<u32>) -> Result<Items<u32>, AllocError>
    ensures { IfOk result (λ r. r ≡ alone index) }
{
    let mut over = Vec::new(alloc);
    if let Some(index) = index {
        over.push(index)?;
    }
    Ok(Items::from_vec(over))
}

/// Where a loop first breaks a rule of stable loops, in the order of the rules; `None` where it is stable. `pures` tells
/// which functions are pure, and `locals` are those of its function.
#[tactic(auto, unfolding(crate::specs::Stable::first_unstable))]
pub fn first_unstable(
    alloc: Global,
    pures: &[bool],
    locals: &[Local],
    s: &Stmt,
) -> Result<Option<Breach>, AllocError>
    requires { IsTrue (is_loop s.now) }
    ensures { IfOk result (λ r. r ≡ first_unstable pures.now locals.now s.now) }
{
    let StmtKind::Loop {
        id: _,
        form,
        init,
        test,
        step,
        body,
        pragmas: _,
    } = &s.kind
    else {
        unreachable!()
    };
    let index = match normal_form(alloc, pures, locals, s)? {
        Ok(header) => Some(header.index),
        Err(_) => None,
    };
    let effects = effects_of(alloc, s)?;
    let over = alone(alloc, index)?;
    let w = Walk {
        alloc,
        pures,
        locals,
        effects: effects.as_slice(),
        index,
    };
    let mut clause = Vec::new(alloc);
    collect_stmts(&mut clause, &w, over.as_slice(), init.as_slice())?;
    let mut rest = Vec::new(alloc);
    if is_late(*form) {
        collect_stmt(&mut rest, &w, over.as_slice(), body.get())?;
        collect_maybe(&mut rest, &w, over.as_slice(), test)?;
        collect_maybe(&mut rest, &w, over.as_slice(), step)?;
    } else {
        collect_maybe(&mut rest, &w, over.as_slice(), test)?;
        collect_maybe(&mut rest, &w, over.as_slice(), step)?;
        collect_stmt(&mut rest, &w, over.as_slice(), body.get())?;
    }
    clause.extend_from_slice(rest.as_slice())?;
    Ok(first_breach(clause.as_slice(), rest.as_slice()))
}
