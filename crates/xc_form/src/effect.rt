//! What an expression or a statement does, in order.

ghost use Rattle.std.specs.Prelude.{◌≡◌, ◌++◌, [], ◌∷◌, OnOk, IfOk};
ghost use Rattle.xc_tree.specs.Types.{is_void, array_under};
ghost use Rattle.xc_tree.specs.Kinds.{read_kind, write_kind};
ghost use Rattle.xc_form.specs.Effects.{root_of, local_of, is_exact, expr_effects, inits_effects, maybe_effects, capture_effects, captures_effects, start_effects, stmt_effects};
ghost use Rattle.xc_form.specs.InnerEffects.{array_root, is_zero, written_root, exprs_effects, stmts_effects, item_effects, items_effects};

use sqlite_items::Items;
use std::alloc::{AllocError, Global};
use xc_tree::{Capture, Expr, ExprKind, Item, Root, Stmt, StmtKind, Ty};
use xc_word::Kind;

/// One thing that is done. The root of an access is the named object that it lies in; through a pointer, and by a
/// generic function that leaves another value or state, it is `Other`.
#[derive(Clone, Copy, PartialEq, Eq)]
pub enum Effect {
    /// Gives a local that has no address a value.
    Set(u32),
    /// Declares a local, after its initialisers; a copy of a `future` statement, after what it copies.
    Declare(u32),
    /// Reads a cell.
    Read { root: Root, kind: Kind },
    /// Writes or empties a cell, or adds to it.
    Write { root: Root, kind: Kind },
    /// Calls the function with this number, after its arguments.
    Call(u32),
    /// Prints.
    Print,
    /// Begins the loop with this id.
    Loop(u32),
    /// Starts a thread, whose body's effects follow.
    Future,
}

// Whether an index of the array at a place of this type stays within its bound.
fn is_exact(ty: &Ty, bound: u32) -> bool
    ensures { result ≡ is_exact (array_under ty.now) bound }
{
    let Ty::Ptr(to) = ty else {
        return false;
    };
    match to.get() {
        Ty::Array(n, _) => bound == *n,
        _ => false,
    }
}

fn is_void(ty: &Ty) -> bool
    ensures { result ≡ is_void ty.now }
{
    match ty {
        Ty::Void => true,
        _ => false,
    }
}

fn is_zero(e: &Expr) -> bool
    ensures { result ≡ is_zero e.now }
{
    match &e.kind {
        ExprKind::Const(n) => *n == 0,
        _ => false,
    }
}

/// The named object that a place lies in, else `Other`.
#[cycle(root)]
pub fn root_of(e: &Expr) -> Root
    ensures { result ≡ root_of e.now }
{
    match &e.kind {
        ExprKind::Global(g) => Root::Global(*g),
        ExprKind::Auto(x) => Root::Local(*x),
        ExprKind::Member { base, off: _ } => root_of(base.get()),
        ExprKind::Index {
            base,
            index: _,
            size: _,
            bound: Some(bound),
        } => {
            if is_exact(&base.get().ty, *bound) {
                root_of(base.get())
            } else {
                Root::Other
            }
        }
        ExprKind::Index {
            base,
            index,
            size: _,
            bound: None,
        } => {
            if is_zero(index.get()) {
                array_root(base.get())
            } else {
                Root::Other
            }
        }
        _ => Root::Other,
    }
}

// The array whose name the value is, else `Other`.
#[cycle(root)]
fn array_root(e: &Expr) -> Root
    ensures { result ≡ array_root e.now }
{
    match &e.kind {
        ExprKind::Index {
            base,
            index,
            size: _,
            bound: Some(bound),
        } => {
            if is_zero(index.get()) && is_exact(&base.get().ty, *bound) {
                root_of(base.get())
            } else {
                Root::Other
            }
        }
        _ => Root::Other,
    }
}

pub(crate) fn local_of(e: &Expr) -> Option<u32>
    ensures { result ≡ local_of e.now }
{
    match &e.kind {
        ExprKind::Local(x) => Some(*x),
        _ => None,
    }
}

fn read_in_place(place: &Expr) -> Effect
    ensures { result ≡ Effect.Read (root_of place.now) (read_kind place.now.ty) }
{
    Effect::Read {
        root: root_of(place),
        kind: place.ty.read_kind(),
    }
}

fn written_in_place(place: &Expr) -> Effect
    ensures { result ≡ Effect.Write (root_of place.now) (write_kind place.now.ty) }
{
    Effect::Write {
        root: root_of(place),
        kind: place.ty.write_kind(),
    }
}

fn put(out: &mut Vec<Effect>, effect: Effect) -> Result<(), AllocError>
    ensures { OnOk result (out.new.items ≡ out.old.items ++ effect ∷ []) }
{
    out.push(effect)?;
    Ok(())
}

// The root of a write: a generic function, which is void, is an access through a pointer.
fn written_root(ty: &Ty, place: &Expr) -> Root
    ensures { result ≡ written_root ty.now place.now }
{
    if is_void(ty) {
        Root::Other
    } else {
        root_of(place)
    }
}

#[cycle(collect)]
fn collect_expr(out: &mut Vec<Effect>, e: &Expr) -> Result<(), AllocError>
    ensures { OnOk result (out.new.items ≡ out.old.items ++ expr_effects e.now) }
{
    match &e.kind {
        ExprKind::Const(_) | ExprKind::Local(_) | ExprKind::Global(_) | ExprKind::Auto(_) => Ok(()),
        ExprKind::Set { local, value } => {
            collect_expr(out, value.get())?;
            put(out, Effect::Set(*local))
        }
        ExprKind::Index {
            base,
            index,
            size: _,
            bound: _,
        } => {
            collect_expr(out, base.get())?;
            collect_expr(out, index.get())
        }
        ExprKind::Member { base, off: _ } => collect_expr(out, base.get()),
        ExprKind::Read { kind, place } => {
            collect_expr(out, place.get())?;
            put(
                out,
                Effect::Read {
                    root: root_of(place.get()),
                    kind: *kind,
                },
            )
        }
        ExprKind::Write { kind, place, value } => {
            collect_expr(out, place.get())?;
            collect_expr(out, value.get())?;
            put(
                out,
                Effect::Write {
                    root: written_root(&e.ty, place.get()),
                    kind: *kind,
                },
            )
        }
        ExprKind::FetchAdd { place, value } => {
            collect_expr(out, place.get())?;
            collect_expr(out, value.get())?;
            put(
                out,
                Effect::Write {
                    root: Root::Other,
                    kind: Kind::Add,
                },
            )
        }
        ExprKind::Purge { place } => {
            collect_expr(out, place.get())?;
            put(
                out,
                Effect::Write {
                    root: Root::Other,
                    kind: Kind::Purge,
                },
            )
        }
        ExprKind::Update {
            op: _,
            post: _,
            place,
            value,
        } => match local_of(place.get()) {
            Some(local) => {
                collect_expr(out, value.get())?;
                put(out, Effect::Set(local))
            }
            None => {
                collect_expr(out, place.get())?;
                put(out, read_in_place(place.get()))?;
                collect_expr(out, value.get())?;
                put(out, written_in_place(place.get()))
            }
        },
        ExprKind::Unary { op: _, of } => collect_expr(out, of.get()),
        ExprKind::Binary { op: _, a, b } => {
            collect_expr(out, a.get())?;
            collect_expr(out, b.get())
        }
        ExprKind::And(a, b) => {
            collect_expr(out, a.get())?;
            collect_expr(out, b.get())
        }
        ExprKind::Or(a, b) => {
            collect_expr(out, a.get())?;
            collect_expr(out, b.get())
        }
        ExprKind::Comma(a, b) => {
            collect_expr(out, a.get())?;
            collect_expr(out, b.get())
        }
        ExprKind::Cond { test, then, other } => {
            collect_expr(out, test.get())?;
            collect_expr(out, then.get())?;
            collect_expr(out, other.get())
        }
        ExprKind::Call { func, args } => {
            collect_exprs(out, args.as_slice())?;
            put(out, Effect::Call(*func))
        }
        ExprKind::Print { format: _, args } => {
            collect_exprs(out, args.as_slice())?;
            put(out, Effect::Print)
        }
    }
}

#[cycle(collect)]
fn collect_exprs(out: &mut Vec<Effect>, list: &[Expr]) -> Result<(), AllocError>
    ensures { OnOk result (out.new.items ≡ out.old.items ++ exprs_effects list.now) }
{
    for e in list {
        collect_expr(out, e)?;
    }
    Ok(())
}

fn collect_maybe(out: &mut Vec<Effect>, e: &Option<Expr>) -> Result<(), AllocError>
    ensures { OnOk result (out.new.items ≡ out.old.items ++ maybe_effects e.now) }
{
    match e {
        None => Ok(()),
        Some(e) => collect_expr(out, e),
    }
}

fn collect_inits(out: &mut Vec<Effect>, list: &[(u32, Expr)]) -> Result<(), AllocError>
    ensures { OnOk result (out.new.items ≡ out.old.items ++ inits_effects list.now) }
{
    for i in list {
        collect_expr(out, &i.1)?;
    }
    Ok(())
}

fn collect_capture(out: &mut Vec<Effect>, capture: &Capture) -> Result<(), AllocError>
    ensures { OnOk result (out.new.items ≡ out.old.items ++ capture_effects capture.now) }
{
    collect_expr(out, &capture.from)?;
    put(out, Effect::Declare(capture.local))
}

fn collect_captures(out: &mut Vec<Effect>, list: &[Capture]) -> Result<(), AllocError>
    ensures { OnOk result (out.new.items ≡ out.old.items ++ captures_effects list.now) }
{
    for c in list {
        collect_capture(out, c)?;
    }
    Ok(())
}

// What a `future` statement does before its body.
fn collect_start(
    out: &mut Vec<Effect>,
    place: &Expr,
    captures: &[Capture],
) -> Result<(), AllocError>
    ensures { OnOk result (out.new.items ≡ out.old.items ++ start_effects place.now captures.now) }
{
    collect_expr(out, place)?;
    put(
        out,
        Effect::Write {
            root: root_of(place),
            kind: Kind::Purge,
        },
    )?;
    collect_captures(out, captures)?;
    put(out, Effect::Future)
}

#[cycle(statement)]
fn collect_stmt(out: &mut Vec<Effect>, s: &Stmt) -> Result<(), AllocError>
    ensures { OnOk result (out.new.items ≡ out.old.items ++ stmt_effects s.now) }
{
    match &s.kind {
        StmtKind::Empty | StmtKind::Break | StmtKind::Continue => Ok(()),
        StmtKind::Declare { local, init } => {
            collect_inits(out, init.as_slice())?;
            put(out, Effect::Declare(*local))
        }
        StmtKind::Eval(e) => collect_expr(out, e),
        StmtKind::Block(all) => collect_stmts(out, all.as_slice()),
        StmtKind::If {
            test,
            then,
            other: None,
        } => {
            collect_expr(out, test)?;
            collect_stmt(out, then.get())
        }
        StmtKind::If {
            test,
            then,
            other: Some(other),
        } => {
            collect_expr(out, test)?;
            collect_stmt(out, then.get())?;
            collect_stmt(out, other.get())
        }
        StmtKind::Loop {
            id,
            form: _,
            init,
            test,
            step,
            body,
            pragmas: _,
        } => {
            put(out, Effect::Loop(*id))?;
            collect_stmts(out, init.as_slice())?;
            collect_maybe(out, test)?;
            collect_stmt(out, body.get())?;
            collect_maybe(out, step)
        }
        StmtKind::Switch { value, items } => {
            collect_expr(out, value)?;
            collect_items(out, items.as_slice())
        }
        StmtKind::Return(e) => collect_maybe(out, e),
        StmtKind::Future {
            place,
            captures,
            body,
        } => {
            collect_start(out, place, captures.as_slice())?;
            collect_stmt(out, body.get())?;
            put(
                out,
                Effect::Write {
                    root: root_of(place),
                    kind: Kind::WriteXf,
                },
            )
        }
    }
}

#[cycle(statement)]
fn collect_stmts(out: &mut Vec<Effect>, list: &[Stmt]) -> Result<(), AllocError>
    ensures { OnOk result (out.new.items ≡ out.old.items ++ stmts_effects list.now) }
{
    for s in list {
        collect_stmt(out, s)?;
    }
    Ok(())
}

#[cycle(statement)]
fn collect_item(out: &mut Vec<Effect>, item: &Item) -> Result<(), AllocError>
    ensures { OnOk result (out.new.items ≡ out.old.items ++ item_effects item.now) }
{
    match item {
        Item::At(_) | Item::Other => Ok(()),
        Item::Do(s) => collect_stmt(out, s),
    }
}

#[cycle(statement)]
fn collect_items(out: &mut Vec<Effect>, list: &[Item]) -> Result<(), AllocError>
    ensures { OnOk result (out.new.items ≡ out.old.items ++ items_effects list.now) }
{
    for item in list {
        collect_item(out, item)?;
    }
    Ok(())
}

/// What an expression does, in order.
pub fn effects_of_expr(alloc: Global, e: &Expr) -> Result<Items<Effect>, AllocError>
    ensures { IfOk result (λ r. r ≡ expr_effects e.now) }
{
    let mut out = Vec::new(alloc);
    collect_expr(&mut out, e)?;
    Ok(Items::from_vec(out))
}

/// What a statement does, in order, each branch, each loop and each statement of a `switch` once.
pub fn effects_of(alloc: Global, s: &Stmt) -> Result<Items<Effect>, AllocError>
    ensures { IfOk result (λ r. r ≡ stmt_effects s.now) }
{
    let mut out = Vec::new(alloc);
    collect_stmt(&mut out, s)?;
    Ok(Items::from_vec(out))
}
