//! Addresses and bounds that change with the indices alone.

ghost use Rattle.std.specs.Prelude.{◌≡◌, Some, map};
ghost use Rattle.xc_tree.specs.Lists.{has, some};
ghost use Rattle.xc_form.specs.Changes.{divides};
ghost use Rattle.xc_form_stable.specs.Addresses.{disturbs, is_named, is_kept, is_kept_at, is_write, has_write};
ghost use Rattle.xc_form_stable.specs.InnerStable.{frame_of, is_steady_where};

use crate::walk::Walk;
use xc_form::{Effect, is_assigned, root_of};
use xc_tree::{BinOp, Expr, ExprKind, Root};

fn disturbs(root: Root, effect: &Effect) -> bool
    ensures { result ≡ disturbs root effect.now }
{
    match effect {
        Effect::Write {
            root: written,
            kind: _,
        } => match (root, *written) {
            (_, Root::Other) => true,
            (Root::Global(g), Root::Global(h)) => g == h,
            (Root::Local(x), Root::Local(y)) => x == y,
            _ => false,
        },
        _ => false,
    }
}

fn is_named(root: Root) -> bool
    ensures { result ≡ is_named root }
{
    match root {
        Root::Global(_) | Root::Local(_) => true,
        _ => false,
    }
}

#[tactic(auto, using(xc_tree::proofs::Lists::list_rules))]
fn is_disturbed(effects: &[Effect], root: Root) -> bool
    ensures { result ≡ some (map (disturbs root) effects.now) }
{
    for effect in effects {
        if disturbs(root, effect) {
            return true;
        }
    }
    false
}

fn is_kept(effects: &[Effect], root: Root) -> bool
    ensures { result ≡ is_kept effects.now root }
{
    is_named(root) && !is_disturbed(effects, root)
}

#[tactic(auto, unfolding(crate::specs::Addresses::is_kept_at))]
fn is_kept_at(effects: &[Effect], place: &Expr) -> bool
    ensures { result ≡ is_kept_at effects.now place.now }
{
    is_kept(effects, root_of(place))
}

fn is_write(effect: &Effect) -> bool
    ensures { result ≡ is_write effect.now }
{
    match effect {
        Effect::Write { root: _, kind: _ } => true,
        _ => false,
    }
}

#[tactic(auto, using(xc_tree::proofs::Lists::list_rules))]
pub(crate) fn has_write(effects: &[Effect]) -> bool
    ensures { result ≡ has_write effects.now }
{
    for effect in effects {
        if is_write(effect) {
            return true;
        }
    }
    false
}

#[tactic(auto, using(xc_tree::proofs::Lists::list_rules))]
fn is_among(x: u32, over: &[u32]) -> bool
    ensures { result ≡ has x over.now }
{
    for y in over {
        if x == *y {
            return true;
        }
    }
    false
}

fn divides(op: BinOp) -> bool
    ensures { result ≡ divides op }
{
    match op {
        BinOp::Div | BinOp::Rem => true,
        _ => false,
    }
}

/// Whether an expression changes with the indices alone, inside the loops over these. Where `all` holds every read may
/// stand in it, else those of named objects that the loop leaves alone.
pub(crate) fn is_steady(e: &Expr, w: &Walk, all: bool, over: &[u32]) -> bool
    ensures { result ≡ is_steady_where (frame_of w.now) all over.now e.now }
{
    match &e.kind {
        ExprKind::Const(_) | ExprKind::Global(_) | ExprKind::Auto(_) => true,
        ExprKind::Local(x) => !is_assigned(w.effects, *x) || is_among(*x, over),
        ExprKind::Index {
            base,
            index,
            size: _,
            bound: _,
        } => is_steady(base.get(), w, all, over) && is_steady(index.get(), w, all, over),
        ExprKind::Member { base, off: _ } => is_steady(base.get(), w, all, over),
        ExprKind::Read { kind: _, place } => all || is_kept_at(w.effects, place.get()),
        ExprKind::Unary { op: _, of } => is_steady(of.get(), w, all, over),
        ExprKind::Binary { op, a, b } => {
            !divides(*op) && is_steady(a.get(), w, all, over) && is_steady(b.get(), w, all, over)
        }
        ExprKind::And(a, b) => is_steady(a.get(), w, all, over) && is_steady(b.get(), w, all, over),
        ExprKind::Or(a, b) => is_steady(a.get(), w, all, over) && is_steady(b.get(), w, all, over),
        ExprKind::Comma(a, b) => is_steady(a.get(), w, all, over)
            && is_steady(b.get(), w, all, over),
        ExprKind::Cond { test, then, other } => {
            is_steady(test.get(), w, all, over)
                && is_steady(then.get(), w, all, over)
                && is_steady(other.get(), w, all, over)
        }
        _ => false,
    }
}
