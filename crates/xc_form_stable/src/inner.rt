//! Loops inside the loop: their bounds, and whether they pass no end of Int.

ghost use Rattle.std.specs.Prelude.{◌≡◌, ◌++◌, Some, OnOk, IfOk};
ghost use Rattle.xc_tree.specs.Lists.{passes};
ghost use Rattle.xc_form_stable.specs.Stable.{is_near, is_index, follows_index, steps_by_one, is_fixed_bound, lower_of, upper_of, ends_by_rule, loop_rule, breach_of, bound_breach, with_index};
ghost use Rattle.xc_form_stable.specs.InnerStable.{frame_of};

use crate::breach::{Breach, Rule};
use crate::steady::is_steady;
use crate::walk::{Walk, put, put_if};
use sqlite_items::Items;
use std::alloc::{AllocError, Global};
use xc_form::{Header, Step, is_unchanging};
use xc_text_place::Span;
use xc_tree::{BinOp, Expr, ExprKind, NotNormal, Stmt, StmtKind};

fn is_near(e: &Expr) -> bool
    ensures { result ≡ is_near e.now }
{
    match &e.kind {
        ExprKind::Const(n) => *n <= 1 << 31,
        _ => false,
    }
}

fn is_index(w: &Walk, e: &Expr) -> bool
    ensures { result ≡ is_index (frame_of w.now) e.now }
{
    match (w.index, &e.kind) {
        (Some(index), ExprKind::Local(x)) => index == *x,
        _ => false,
    }
}

fn follows_index(w: &Walk, e: &Expr) -> bool
    ensures { result ≡ follows_index (frame_of w.now) e.now }
{
    if is_index(w, e) {
        return true;
    }
    match &e.kind {
        ExprKind::Binary {
            op: BinOp::Add,
            a,
            b,
        } => {
            (is_index(w, a.get()) && is_near(b.get())) || (is_near(a.get()) && is_index(w, b.get()))
        }
        ExprKind::Binary {
            op: BinOp::Sub,
            a,
            b,
        } => is_index(w, a.get()) && is_near(b.get()),
        _ => false,
    }
}

fn steps_by_one(order: BinOp, step: Step) -> bool
    ensures { result ≡ steps_by_one order step }
{
    match order {
        BinOp::Lt => !step.down && step.size == 1,
        BinOp::Gt => step.down && step.size == 1,
        _ => false,
    }
}

// Whether what the first clause gives the index is unchanging in the loop under test.
fn has_fixed_lower(w: &Walk, init: &[Stmt]) -> bool
    ensures { result ≡ is_fixed_bound (frame_of w.now) (lower_of init.now) }
{
    let [clause, ..] = init else {
        return true;
    };
    match &clause.kind {
        StmtKind::Eval(e) => match &e.kind {
            ExprKind::Set { local: _, value } => is_unchanging(w.pures, w.effects, value.get()),
            _ => true,
        },
        StmtKind::Declare { local: _, init } => match init.as_slice() {
            [] => true,
            [first, ..] => is_unchanging(w.pures, w.effects, &first.1),
        },
        _ => true,
    }
}

// Whether what the index is compared with is unchanging in the loop under test, or follows its index.
fn upper_is(w: &Walk, test: &Option<Expr>) -> (bool, bool)
    ensures fixed { result.0 ≡ is_fixed_bound (frame_of w.now) (upper_of test.now) }
    ensures follows { result.1 ≡ passes (follows_index (frame_of w.now)) (upper_of test.now) }
{
    let Some(test) = test else {
        return (true, false);
    };
    match &test.kind {
        ExprKind::Binary { op: _, a: _, b } => (
            is_unchanging(w.pures, w.effects, b.get()),
            follows_index(w, b.get()),
        ),
        _ => (true, false),
    }
}

fn ends_by_rule(w: &Walk, header: Header, init: &[Stmt], test: &Option<Expr>) -> bool
    ensures { result ≡ ends_by_rule (frame_of w.now) header init.now test.now }
{
    let (is_fixed, follows) = upper_is(w, test);
    (has_fixed_lower(w, init) && is_fixed) || steps_by_one(header.order, header.step) || follows
}

/// The rule that a loop inside the loop breaks: a Concurrent loop; one that is not normal, or passes an end of Int.
pub(crate) fn loop_rule(
    w: &Walk,
    is_concurrent: bool,
    form: Result<Header, NotNormal>,
    init: &[Stmt],
    test: &Option<Expr>,
) -> Option<Rule>
    ensures { result ≡ loop_rule (frame_of w.now) is_concurrent form init.now test.now }
{
    if is_concurrent {
        return Some(Rule::Sync);
    }
    match form {
        Err(_) => Some(Rule::Call),
        Ok(header) => {
            if ends_by_rule(w, header, init, test) {
                None
            } else {
                Some(Rule::Call)
            }
        }
    }
}

pub(crate) fn put_some(
    out: &mut Vec<Breach>,
    rule: Option<Rule>,
    at: Span,
) -> Result<(), AllocError>
    ensures { OnOk result (out.new.items ≡ out.old.items ++ breach_of rule at) }
{
    match rule {
        None => Ok(()),
        Some(rule) => put(out, rule, at),
    }
}

fn collect_bound(
    out: &mut Vec<Breach>,
    w: &Walk,
    over: &[u32],
    bound: &Expr,
) -> Result<(), AllocError>
    ensures { OnOk result (out.new.items ≡ out.old.items ++ bound_breach (frame_of w.now) over.now (Some bound.now)) }
{
    put_if(
        out,
        !is_steady(bound, w, false, over),
        Rule::Address,
        bound.span,
    )
}

/// The breach of what the first clause gives the index.
pub(crate) fn collect_lower(
    out: &mut Vec<Breach>,
    w: &Walk,
    over: &[u32],
    init: &[Stmt],
) -> Result<(), AllocError>
    ensures { OnOk result (out.new.items ≡ out.old.items ++ bound_breach (frame_of w.now) over.now (lower_of init.now)) }
{
    let [clause, ..] = init else {
        return Ok(());
    };
    match &clause.kind {
        StmtKind::Eval(e) => match &e.kind {
            ExprKind::Set { local: _, value } => collect_bound(out, w, over, value.get()),
            _ => Ok(()),
        },
        StmtKind::Declare { local: _, init } => match init.as_slice() {
            [] => Ok(()),
            [first, ..] => collect_bound(out, w, over, &first.1),
        },
        _ => Ok(()),
    }
}

/// The breach of what the index is compared with.
pub(crate) fn collect_upper(
    out: &mut Vec<Breach>,
    w: &Walk,
    over: &[u32],
    test: &Option<Expr>,
) -> Result<(), AllocError>
    ensures { OnOk result (out.new.items ≡ out.old.items ++ bound_breach (frame_of w.now) over.now (upper_of test.now)) }
{
    let Some(test) = test else {
        return Ok(());
    };
    match &test.kind {
        ExprKind::Binary { op: _, a: _, b } => collect_bound(out, w, over, b.get()),
        _ => Ok(()),
    }
}

/// The indices that count in the body of a loop.
pub(crate) fn with_index(
    alloc: Global,
    over: &[u32],
    form: Result<Header, NotNormal>,
) -> Result<Items<u32>, AllocError>
    ensures { IfOk result (λ r. r ≡ with_index over.now form) }
{
    let mut all = Vec::new(alloc);
    all.extend_from_slice(over)?;
    if let Ok(header) = form {
        all.push(header.index)?;
    }
    Ok(Items::from_vec(all))
}
