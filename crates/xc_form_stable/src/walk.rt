//! The rules that an expression or a statement of the loop breaks, in the order of the text.

ghost use Rattle.std.specs.Prelude.{◌≡◌, ◌++◌, [], ◌∷◌, OnOk, not};
ghost use Rattle.xc_tree.specs.Types.{is_void as is_void_by};
ghost use Rattle.xc_form.specs.Changes.{leads_to_plain, unsettles};
ghost use Rattle.xc_form_stable.specs.Addresses.{breach, breach_if, is_plain_read, is_plain_write, is_variable, expr_breaches};
ghost use Rattle.xc_form_stable.specs.InnerStable.{frame_of, address_of, exprs_breaches};

use crate::breach::{Breach, Rule};
use crate::steady::{has_write, is_steady};
use std::alloc::{AllocError, Global};
use xc_form::Effect;
use xc_text_place::Span;
use xc_tree::{Expr, ExprKind, Local, Ty};
use xc_word::Kind;

/// The loop under test: which functions are pure, the locals of its function, what the whole statement does, its index.
#[derive(Clone, Copy)]
pub(crate) struct Walk<'a> {
    pub(crate) alloc: Global,
    pub(crate) pures: &'a [bool],
    pub(crate) locals: &'a [Local],
    pub(crate) effects: &'a [Effect],
    pub(crate) index: Option<u32>,
}

pub(crate) fn put(out: &mut Vec<Breach>, rule: Rule, at: Span) -> Result<(), AllocError>
    ensures { OnOk result (out.new.items ≡ out.old.items ++ breach rule at ∷ []) }
{
    out.push(Breach { rule, at })?;
    Ok(())
}

pub(crate) fn put_if(
    out: &mut Vec<Breach>,
    is_broken: bool,
    rule: Rule,
    at: Span,
) -> Result<(), AllocError>
    ensures { OnOk result (out.new.items ≡ out.old.items ++ breach_if is_broken rule at) }
{
    if is_broken {
        put(out, rule, at)
    } else {
        Ok(())
    }
}

fn leads_to_plain(place: &Ty) -> bool
    ensures { result ≡ leads_to_plain place.now }
{
    let Ty::Ptr(to) = place else {
        return false;
    };
    match to.get() {
        Ty::Int | Ty::Uint | Ty::Ptr(_) => true,
        _ => false,
    }
}

fn is_void(ty: &Ty) -> bool
    ensures { result ≡ is_void_by ty.now }
{
    match ty {
        Ty::Void => true,
        _ => false,
    }
}

fn is_plain_read(kind: Kind, place: &Ty) -> bool
    ensures { result ≡ is_plain_read kind place.now }
{
    match kind {
        Kind::ReadXx => leads_to_plain(place),
        _ => false,
    }
}

fn is_plain_write(kind: Kind, place: &Ty, ty: &Ty) -> bool
    ensures { result ≡ is_plain_write kind place.now ty.now }
{
    match kind {
        Kind::WriteXf => leads_to_plain(place) && !is_void(ty),
        _ => false,
    }
}

fn is_pure(pures: &[bool], func: u32) -> bool
    ensures { not result ≡ unsettles pures.now (Effect.Call func) }
{
    match pures.get(func as usize) {
        Some(pure) => *pure,
        None => false,
    }
}

#[tactic(auto, unfolding(crate::specs::Addresses::is_variable))]
fn is_variable(e: &Expr) -> bool
    ensures { result ≡ is_variable e.now }
{
    match &e.kind {
        ExprKind::Local(_) => true,
        _ => false,
    }
}

fn collect_address(
    out: &mut Vec<Breach>,
    w: &Walk,
    over: &[u32],
    place: &Expr,
    at: Span,
) -> Result<(), AllocError>
    ensures { OnOk result (out.new.items ≡ out.old.items ++ address_of (frame_of w.now) over.now place.now at) }
{
    let all = !has_write(w.effects);
    put_if(out, !is_steady(place, w, all, over), Rule::Address, at)
}

#[cycle(collect)]
pub(crate) fn collect_expr(
    out: &mut Vec<Breach>,
    w: &Walk,
    over: &[u32],
    e: &Expr,
) -> Result<(), AllocError>
    ensures { OnOk result (out.new.items ≡ out.old.items ++ expr_breaches (frame_of w.now) over.now e.now) }
{
    match &e.kind {
        ExprKind::Const(_) | ExprKind::Local(_) | ExprKind::Global(_) | ExprKind::Auto(_) => Ok(()),
        ExprKind::Set { local: _, value } => collect_expr(out, w, over, value.get()),
        ExprKind::Index {
            base,
            index,
            size: _,
            bound: _,
        } => {
            collect_expr(out, w, over, base.get())?;
            collect_expr(out, w, over, index.get())
        }
        ExprKind::Member { base, off: _ } => collect_expr(out, w, over, base.get()),
        ExprKind::Read { kind, place } => {
            put_if(
                out,
                !is_plain_read(*kind, &place.get().ty),
                Rule::Sync,
                e.span,
            )?;
            collect_expr(out, w, over, place.get())?;
            collect_address(out, w, over, place.get(), e.span)
        }
        ExprKind::Write { kind, place, value } => {
            put_if(
                out,
                !is_plain_write(*kind, &place.get().ty, &e.ty),
                Rule::Sync,
                e.span,
            )?;
            collect_expr(out, w, over, place.get())?;
            collect_expr(out, w, over, value.get())?;
            collect_address(out, w, over, place.get(), e.span)
        }
        ExprKind::FetchAdd { place, value } => {
            put(out, Rule::Sync, e.span)?;
            collect_expr(out, w, over, place.get())?;
            collect_expr(out, w, over, value.get())
        }
        ExprKind::Purge { place } => {
            put(out, Rule::Sync, e.span)?;
            collect_expr(out, w, over, place.get())
        }
        ExprKind::Update {
            op: _,
            post: _,
            place,
            value,
        } => {
            if is_variable(place.get()) {
                return collect_expr(out, w, over, value.get());
            }
            put_if(out, !leads_to_plain(&place.get().ty), Rule::Sync, e.span)?;
            collect_expr(out, w, over, place.get())?;
            collect_address(out, w, over, place.get(), e.span)?;
            collect_expr(out, w, over, value.get())
        }
        ExprKind::Unary { op: _, of } => collect_expr(out, w, over, of.get()),
        ExprKind::Binary { op: _, a, b } => {
            collect_expr(out, w, over, a.get())?;
            collect_expr(out, w, over, b.get())
        }
        ExprKind::And(a, b) => {
            collect_expr(out, w, over, a.get())?;
            collect_expr(out, w, over, b.get())
        }
        ExprKind::Or(a, b) => {
            collect_expr(out, w, over, a.get())?;
            collect_expr(out, w, over, b.get())
        }
        ExprKind::Comma(a, b) => {
            collect_expr(out, w, over, a.get())?;
            collect_expr(out, w, over, b.get())
        }
        ExprKind::Cond { test, then, other } => {
            collect_expr(out, w, over, test.get())?;
            collect_expr(out, w, over, then.get())?;
            collect_expr(out, w, over, other.get())
        }
        ExprKind::Call { func, args } => {
            put_if(out, !is_pure(w.pures, *func), Rule::Call, e.span)?;
            collect_exprs(out, w, over, args.as_slice())
        }
        ExprKind::Print { format: _, args } => {
            put(out, Rule::Call, e.span)?;
            collect_exprs(out, w, over, args.as_slice())
        }
    }
}

#[cycle(collect)]
fn collect_exprs(
    out: &mut Vec<Breach>,
    w: &Walk,
    over: &[u32],
    list: &[Expr],
) -> Result<(), AllocError>
    ensures { OnOk result (out.new.items ≡ out.old.items ++ exprs_breaches (frame_of w.now) over.now list.now) }
{
    for e in list {
        collect_expr(out, w, over, e)?;
    }
    Ok(())
}
