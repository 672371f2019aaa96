//! Loops in normal form.

ghost use Rattle.std.specs.Prelude.{◌≡◌, IsTrue, IfOk, slice_get};
ghost use Rattle.xc_form.specs.Normal.{is_int_variable, index_of, is_order, is_local, order_of, bound_ok, step_by, constant_step, amount, sum_step, any_step, step_of, toward, exits, with_body, normal_form, is_loop};
ghost use Rattle.xc_form.specs.InnerNormal.{any_exits, item_exits, any_item_exits};

use crate::change::{is_assigned, is_unchanging};
use crate::effect::{Effect, effects_of, local_of};
use std::alloc::{AllocError, Global};
use xc_tree::{BinOp, Expr, ExprKind, Item, Local, LoopForm, NotNormal, Stmt, StmtKind};
use xc_tree_words::{constant, is_int, is_uint};

/// What is added to the index, or taken from it.
#[derive(Clone, Copy, PartialEq, Eq)]
pub struct Step {
    pub down: bool,
    pub size: u64,
}

/// The header of a loop in normal form: the index is compared with a bound by `order`.
#[derive(Clone, Copy, PartialEq, Eq)]
pub struct Header {
    pub index: u32,
    pub order: BinOp,
    pub step: Step,
}

fn is_int_variable(locals: &[Local], x: u32) -> bool
    ensures { result ≡ is_int_variable (slice_get locals.now x) }
{
    match locals.get(x as usize) {
        Some(local) => !local.addressed && is_int(&local.ty),
        None => false,
    }
}

fn index_of(locals: &[Local], init: &[Stmt]) -> Option<u32>
    ensures { result ≡ index_of locals.now init.now }
{
    let [clause] = init else {
        return None;
    };
    match &clause.kind {
        StmtKind::Eval(e) => match &e.kind {
            ExprKind::Set { local, value: _ } => { if is_int(&e.ty) { Some(*local) } else { None } }
            _ => None,
        },
        StmtKind::Declare { local, init: _ } => {
            if is_int_variable(locals, *local) {
                Some(*local)
            } else {
                None
            }
        }
        _ => None,
    }
}

fn is_order(op: BinOp) -> bool
    ensures { result ≡ is_order op }
{
    match op {
        BinOp::Lt | BinOp::Le | BinOp::Gt | BinOp::Ge => true,
        _ => false,
    }
}

fn is_local(x: u32, e: &Expr) -> bool
    ensures { result ≡ is_local x e.now }
{
    match local_of(e) {
        Some(y) => x == y,
        None => false,
    }
}

fn order_of(x: u32, test: &Option<Expr>) -> Option<BinOp>
    ensures { result ≡ order_of x test.now }
{
    let Some(test) = test else {
        return None;
    };
    match &test.kind {
        ExprKind::Binary { op, a, b: _ } => {
            if is_order(*op) && is_local(x, a.get()) {
                Some(*op)
            } else {
                None
            }
        }
        _ => None,
    }
}

fn bound_ok(pures: &[bool], effects: &[Effect], test: &Option<Expr>) -> bool
    ensures { result ≡ bound_ok pures.now effects.now test.now }
{
    let Some(test) = test else {
        return false;
    };
    match &test.kind {
        ExprKind::Binary { op: _, a: _, b } => {
            is_int(&b.get().ty) && is_unchanging(pures, effects, b.get())
        }
        _ => false,
    }
}

fn step_by(uint: bool, n: u64) -> Option<Step>
    ensures { result ≡ step_by uint n }
{
    let most = 1 << 20;
    let below = 0u64.wrapping_sub(n);
    if 1 <= n && n <= most {
        Some(Step {
            down: false,
            size: n,
        })
    } else if !uint && 1 <= below && below <= most {
        Some(Step {
            down: true,
            size: below,
        })
    } else {
        None
    }
}

fn constant_step(e: &Expr) -> Option<Step>
    ensures { result ≡ constant_step e.now }
{
    match constant(e) {
        Some(n) => step_by(is_uint(&e.ty), n),
        None => None,
    }
}

fn amount(op: BinOp, e: &Expr) -> Option<Step>
    ensures { result ≡ amount op e.now }
{
    match op {
        BinOp::Add => constant_step(e),
        BinOp::Sub => match constant_step(e) {
            Some(step) => Some(Step {
                down: !step.down,
                size: step.size,
            }),
            None => None,
        },
        _ => None,
    }
}

fn sum_step(x: u32, value: &Expr) -> Option<Step>
    ensures { result ≡ sum_step x value.now }
{
    match &value.kind {
        ExprKind::Binary { op, a, b } => {
            if is_local(x, a.get()) {
                amount(*op, b.get())
            } else {
                None
            }
        }
        _ => None,
    }
}

fn any_step(x: u32, e: &Expr) -> Option<Step>
    ensures { result ≡ any_step x e.now }
{
    match &e.kind {
        ExprKind::Update {
            op,
            post: _,
            place,
            value,
        } => {
            if is_local(x, place.get()) {
                amount(*op, value.get())
            } else {
                None
            }
        }
        ExprKind::Set { local, value } => {
            if x == *local {
                sum_step(x, value.get())
            } else {
                None
            }
        }
        _ => None,
    }
}

fn toward(order: BinOp, step: Step) -> Option<Step>
    ensures { result ≡ toward order step }
{
    let down = match order {
        BinOp::Lt | BinOp::Le => false,
        _ => true,
    };
    if down == step.down { Some(step) } else { None }
}

fn step_of(x: u32, order: BinOp, step: &Option<Expr>) -> Option<Step>
    ensures { result ≡ step_of x order step.now }
{
    let Some(e) = step else {
        return None;
    };
    match any_step(x, e) {
        Some(step) => toward(order, step),
        None => None,
    }
}

#[cycle(exits)]
fn exits(s: &Stmt, here: bool) -> bool
    ensures { result ≡ exits s.now here }
{
    match &s.kind {
        StmtKind::Block(all) => any_exits(all.as_slice(), here),
        StmtKind::If {
            test: _,
            then,
            other: None,
        } => exits(then.get(), here),
        StmtKind::If {
            test: _,
            then,
            other: Some(other),
        } => exits(then.get(), here) || exits(other.get(), here),
        StmtKind::Loop {
            id: _,
            form: _,
            init: _,
            test: _,
            step: _,
            body,
            pragmas: _,
        } => exits(body.get(), false),
        StmtKind::Switch { value: _, items } => any_item_exits(items.as_slice(), false),
        StmtKind::Return(_) => true,
        StmtKind::Break => here,
        _ => false,
    }
}

#[cycle(exits)]
#[tactic(auto, using(crate::proofs::Walks::walk_rules))]
fn any_exits(list: &[Stmt], here: bool) -> bool
    ensures { result ≡ any_exits list.now here }
{
    for s in list {
        if exits(s, here) {
            return true;
        }
    }
    false
}

#[cycle(exits)]
fn item_exits(item: &Item, here: bool) -> bool
    ensures { result ≡ item_exits item.now here }
{
    match item {
        Item::At(_) | Item::Other => false,
        Item::Do(s) => exits(s, here),
    }
}

#[cycle(exits)]
#[tactic(auto, using(crate::proofs::Walks::walk_rules))]
fn any_item_exits(list: &[Item], here: bool) -> bool
    ensures { result ≡ any_item_exits list.now here }
{
    for item in list {
        if item_exits(item, here) {
            return true;
        }
    }
    false
}

fn with_body(
    alloc: Global,
    index: u32,
    order: BinOp,
    step: Step,
    body: &Stmt,
) -> Result<Result<Header, NotNormal>, AllocError>
    ensures { IfOk result (λ r. r ≡ with_body index order step body.now) }
{
    let effects = effects_of(alloc, body)?;
    if is_assigned(effects.as_slice(), index) {
        return Ok(Err(NotNormal::Assigned));
    }
    if exits(body, true) {
        return Ok(Err(NotNormal::Exit));
    }
    Ok(Ok(Header { index, order, step }))
}

/// The header of a loop in normal form, else the first reason why it is not; `pures` tells which functions are pure, and
/// `locals` are those of its function.
#[tactic(auto, unfolding(crate::specs::Normal::normal_form))]
pub fn normal_form(
    alloc: Global,
    pures: &[bool],
    locals: &[Local],
    s: &Stmt,
) -> Result<Result<Header, NotNormal>, AllocError>
    requires { IsTrue (is_loop s.now) }
    ensures { IfOk result (λ r. r ≡ normal_form pures.now locals.now s.now) }
{
    let StmtKind::Loop {
        id: _,
        form,
        init,
        test,
        step,
        body,
        pragmas: _,
    } = &s.kind
    else {
        unreachable!()
    };
    match form {
        LoopForm::While => Ok(Err(NotNormal::While)),
        LoopForm::Do => Ok(Err(NotNormal::Do)),
        LoopForm::For => {
            let Some(index) = index_of(locals, init.as_slice()) else {
                return Ok(Err(NotNormal::Index));
            };
            let Some(order) = order_of(index, test) else {
                return Ok(Err(NotNormal::Test));
            };
            let effects = effects_of(alloc, s)?;
            if !bound_ok(pures, effects.as_slice(), test) {
                return Ok(Err(NotNormal::Bound));
            }
            match step_of(index, order, step) {
                None => Ok(Err(NotNormal::Step)),
                Some(step) => with_body(alloc, index, order, step, body.get()),
            }
        }
    }
}
