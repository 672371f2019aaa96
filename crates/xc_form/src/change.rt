//! What a loop leaves unchanged.

ghost use Rattle.std.specs.Prelude.{◌≡◌};
ghost use Rattle.xc_form.specs.Changes.{assigns, is_assigned, writes_global, is_written, unsettles, is_unsettled, divides, leads_to_plain, is_fixed, is_unchanging};
ghost use Rattle.xc_form.specs.InnerChanges.{plain_global};

use crate::effect::Effect;
use xc_tree::{BinOp, Expr, ExprKind, Root, Ty};
use xc_word::Kind;

fn assigns(x: u32, effect: &Effect) -> bool
    ensures { result ≡ assigns x effect.now }
{
    match effect {
        Effect::Set(y) => x == *y,
        Effect::Declare(y) => x == *y,
        _ => false,
    }
}

/// Whether one of the effects gives this local a value.
#[tactic(auto, using(xc_tree::proofs::Lists::list_rules))]
pub fn is_assigned(effects: &[Effect], x: u32) -> bool
    ensures { result ≡ is_assigned effects.now x }
{
    for effect in effects {
        if assigns(x, effect) {
            return true;
        }
    }
    false
}

fn writes_global(g: u32, effect: &Effect) -> bool
    ensures { result ≡ writes_global g effect.now }
{
    match effect {
        Effect::Write {
            root: Root::Global(h),
            kind: _,
        } => g == *h,
        _ => false,
    }
}

#[tactic(auto, using(xc_tree::proofs::Lists::list_rules))]
fn is_written(effects: &[Effect], g: u32) -> bool
    ensures { result ≡ is_written effects.now g }
{
    for effect in effects {
        if writes_global(g, effect) {
            return true;
        }
    }
    false
}

fn unsettles(pures: &[bool], effect: &Effect) -> bool
    ensures { result ≡ unsettles pures.now effect.now }
{
    match effect {
        Effect::Write {
            root: Root::Other,
            kind: _,
        } => true,
        Effect::Call(f) => match pures.get(*f as usize) {
            Some(pure) => !*pure,
            None => true,
        },
        _ => false,
    }
}

#[tactic(auto, using(xc_tree::proofs::Lists::list_rules))]
fn is_unsettled(pures: &[bool], effects: &[Effect]) -> bool
    ensures { result ≡ is_unsettled pures.now effects.now }
{
    for effect in effects {
        if unsettles(pures, effect) {
            return true;
        }
    }
    false
}

fn divides(op: BinOp) -> bool
    ensures { result ≡ divides op }
{
    match op {
        BinOp::Div | BinOp::Rem => true,
        _ => false,
    }
}

fn leads_to_plain(ty: &Ty) -> bool
    ensures { result ≡ leads_to_plain ty.now }
{
    let Ty::Ptr(to) = ty else {
        return false;
    };
    match to.get() {
        Ty::Int | Ty::Uint | Ty::Ptr(_) => true,
        _ => false,
    }
}

fn plain_global(place: &Expr, effects: &[Effect], unsettled: bool) -> Option<u32>
    ensures { result ≡ plain_global effects.now unsettled place.now }
{
    if !leads_to_plain(&place.ty) {
        return None;
    }
    match &place.kind {
        ExprKind::Global(g) => Some(*g),
        _ => None,
    }
}

fn is_fixed(e: &Expr, effects: &[Effect], unsettled: bool) -> bool
    ensures { result ≡ is_fixed effects.now unsettled e.now }
{
    match &e.kind {
        ExprKind::Const(_) => true,
        ExprKind::Local(x) => !is_assigned(effects, *x),
        ExprKind::Read {
            kind: Kind::ReadXx,
            place,
        } => match plain_global(place.get(), effects, unsettled) {
            Some(g) => !unsettled && !is_written(effects, g),
            None => false,
        },
        ExprKind::Unary { op: _, of } => is_fixed(of.get(), effects, unsettled),
        ExprKind::Binary { op, a, b } => {
            !divides(*op)
                && is_fixed(a.get(), effects, unsettled)
                && is_fixed(b.get(), effects, unsettled)
        }
        ExprKind::And(a, b) => is_fixed(a.get(), effects, unsettled)
            && is_fixed(b.get(), effects, unsettled),
        ExprKind::Or(a, b) => is_fixed(a.get(), effects, unsettled)
            && is_fixed(b.get(), effects, unsettled),
        ExprKind::Cond { test, then, other } => {
            is_fixed(test.get(), effects, unsettled)
                && is_fixed(then.get(), effects, unsettled)
                && is_fixed(other.get(), effects, unsettled)
        }
        ExprKind::Comma(a, b) => is_fixed(a.get(), effects, unsettled)
            && is_fixed(b.get(), effects, unsettled),
        _ => false,
    }
}

/// Whether an expression is unchanging in a loop with these effects; `pures` tells which functions are pure.
pub fn is_unchanging(pures: &[bool], effects: &[Effect], e: &Expr) -> bool
    ensures { result ≡ is_unchanging pures.now effects.now e.now }
{
    is_fixed(e, effects, is_unsettled(pures, effects))
}
