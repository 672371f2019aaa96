//! Where the first form begins that has no code yet.

ghost use Rattle.std.specs.Prelude.{◌≡◌, map};
ghost use Rattle.xc_tree.specs.Types.{is_number};
ghost use Rattle.xc_meaning.specs.Terms.{term_of, terms_of, part_of, command_of, commands_of};
ghost use Rattle.xc_gen.specs.Unbuilt.{earlier, earlier_of, first_in, first_of, first_done, first_among, first_global, first_func, unbuilt_of};

use xc_tree::{Expr, ExprKind, Func, Object, Span, Stmt, StmtKind, Tree, Ty};
use xc_word::Kind;

fn earlier_of(a: Span, b: Span) -> Span
    ensures { result ≡ earlier_of a b }
{
    if b.start < a.start { b } else { a }
}

fn earlier(a: Option<Span>, b: Option<Span>) -> Option<Span>
    ensures { result ≡ earlier a b }
{
    match (a, b) {
        (Some(a), Some(b)) => Some(earlier_of(a, b)),
        (Some(a), None) => Some(a),
        (None, b) => b,
    }
}

pub(crate) fn is_number(ty: &Ty) -> bool
    ensures { result ≡ is_number ty.now }
{
    match ty {
        Ty::Int | Ty::Uint => true,
        _ => false,
    }
}

/// The global whose place this is.
pub(crate) fn global_of(e: &Expr) -> Option<u32>
    ensures { result ≡ (part_of e.now).global }
{
    match &e.kind {
        ExprKind::Global(global) => Some(*global),
        _ => None,
    }
}

#[cycle(first)]
fn first_in(e: &Expr) -> Option<Span>
    ensures { result ≡ first_in (term_of e.now) }
{
    match &e.kind {
        ExprKind::Const(_) => { if is_number(&e.ty) { None } else { Some(e.span) } }
        ExprKind::Read {
            kind: Kind::ReadXx,
            place,
        } => match global_of(place.get()) {
            Some(_) => None,
            None => Some(e.span),
        },
        ExprKind::Write {
            kind: Kind::WriteXf,
            place,
            value,
        } => match global_of(place.get()) {
            Some(_) => first_in(value.get()),
            None => Some(e.span),
        },
        ExprKind::Update {
            op: _,
            post: _,
            place,
            value,
        } => match global_of(place.get()) {
            Some(_) => first_in(value.get()),
            None => Some(e.span),
        },
        ExprKind::Unary { op: _, of } => first_in(of.get()),
        ExprKind::Binary { op: _, a, b } => earlier(first_in(a.get()), first_in(b.get())),
        ExprKind::And(a, b) => earlier(first_in(a.get()), first_in(b.get())),
        ExprKind::Or(a, b) => earlier(first_in(a.get()), first_in(b.get())),
        ExprKind::Cond { test, then, other } => {
            earlier(
                first_in(test.get()),
                earlier(first_in(then.get()), first_in(other.get())),
            )
        }
        ExprKind::Comma(a, b) => earlier(first_in(a.get()), first_in(b.get())),
        ExprKind::Print { format: _, args } => first_of(args.as_slice()),
        _ => Some(e.span),
    }
}

#[cycle(first)]
fn first_of(args: &[Expr]) -> Option<Span>
    ensures { result ≡ first_of (terms_of (map part_of args.now)) None }
{
    let mut found = None;
    for arg in args {
        found = earlier(found, first_in(arg));
    }
    found
}

#[cycle(done)]
fn first_done(stmt: &Stmt) -> Option<Span>
    ensures { result ≡ first_done (command_of stmt.now) }
{
    match &stmt.kind {
        StmtKind::Empty => None,
        StmtKind::Eval(e) => first_in(e),
        StmtKind::Block(all) => first_among(all.as_slice()),
        StmtKind::Return(Some(e)) => first_in(e),
        _ => Some(stmt.span),
    }
}

#[cycle(done)]
fn first_among(all: &[Stmt]) -> Option<Span>
    ensures { result ≡ first_among (commands_of (map command_of all.now)) None }
{
    let mut found = None;
    for stmt in all {
        found = earlier(found, first_done(stmt));
    }
    found
}

fn first_global(globals: &[Object]) -> Option<Span>
    ensures { result ≡ first_global globals.now None }
{
    let mut found = None;
    for global in globals {
        let here = if is_number(&global.ty) {
            None
        } else {
            Some(global.name)
        };
        found = earlier(found, here);
    }
    found
}

fn first_func(funcs: &[Func], main: u32, before: Option<Span>) -> Option<Span>
    ensures { result ≡ first_func main 0 funcs.now before }
{
    let mut found = before;
    for at in 0..funcs.len() {
        let func = &funcs[at];
        let here = if at == main as usize {
            first_done(func.body.get())
        } else {
            Some(func.name)
        };
        found = earlier(found, here);
    }
    found
}

/// The first token, in the order of the text, of the first form that has no code yet. Code is there for globals of integer type
/// and for `main` alone, with blocks, empty statements, `return`, and expression statements of numbers, globals, operators,
/// assignments and `printf`.
pub fn unbuilt(tree: &Tree) -> Option<Span>
    ensures { result ≡ unbuilt_of tree.now }
{
    let found = first_global(tree.globals.as_slice());
    first_func(tree.funcs.as_slice(), tree.main, found)
}
