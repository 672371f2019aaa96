//! How many values wait at once.

ghost use Rattle.std.specs.Prelude.{◌≡◌, ◌+◌, ◌^◌, ◌<◌, map, max};
ghost use Rattle.xc_meaning.specs.Terms.{term_of, terms_of, part_of, command_of, commands_of};
ghost use Rattle.xc_gen.specs.Code.{waiting_in, waiting_among, waiting_for, waiting_for_all};

use crate::first::{global_of, is_number};
use xc_tree::{Expr, ExprKind, Stmt, StmtKind};
use xc_word::Kind;

#[cycle(waiting)]
fn waiting_in(e: &Expr) -> u32
    requires { waiting_in (term_of e.now) < 2 ^ 32 }
    ensures { result ≡ waiting_in (term_of e.now) }
{
    match &e.kind {
        ExprKind::Write {
            kind: Kind::WriteXf,
            place,
            value,
        } => match global_of(place.get()) {
            Some(_) => waiting_in(value.get()),
            None => 0,
        },
        ExprKind::Update {
            op: _,
            post: _,
            place,
            value,
        } => match global_of(place.get()) {
            Some(_) => waiting_in(value.get()) + 1,
            None => 0,
        },
        ExprKind::Unary { op: _, of } => waiting_in(of.get()),
        ExprKind::Binary { op: _, a, b } => {
            let first = waiting_in(a.get());
            let second = waiting_in(b.get()) + 1;
            first.max(second)
        }
        ExprKind::And(a, b) => waiting_in(a.get()).max(waiting_in(b.get())),
        ExprKind::Or(a, b) => waiting_in(a.get()).max(waiting_in(b.get())),
        ExprKind::Cond { test, then, other } => {
            let first = waiting_in(test.get());
            let second = waiting_in(then.get());
            let third = waiting_in(other.get());
            first.max(second.max(third))
        }
        ExprKind::Comma(a, b) => waiting_in(a.get()).max(waiting_in(b.get())),
        ExprKind::Print { format: _, args } => waiting_among(args.as_slice()),
        ExprKind::Const(_) => 0,
        ExprKind::Read {
            kind: Kind::ReadXx,
            place,
        } => match global_of(place.get()) {
            Some(_) => 0,
            None => 0,
        },
        _ => 0,
    }
}

#[cycle(waiting)]
fn waiting_among(args: &[Expr]) -> u32
    requires { waiting_among (terms_of (map part_of args.now)) 0 < 2 ^ 32 }
    ensures { result ≡ waiting_among (terms_of (map part_of args.now)) 0 }
{
    let mut most = 0u32;
    let mut before = 0;
    for arg in args {
        let here = waiting_in(arg) + before;
        most = most.max(here);
        before = before + 1;
    }
    most.max(before)
}

/// How many values wait at once in a statement.
#[cycle(waiting_for)]
pub(crate) fn waiting_for(stmt: &Stmt) -> u32
    requires { waiting_for (command_of stmt.now) < 2 ^ 32 }
    ensures { result ≡ waiting_for (command_of stmt.now) }
{
    match &stmt.kind {
        StmtKind::Eval(e) => waiting_in(e),
        StmtKind::Block(all) => waiting_for_all(all.as_slice()),
        StmtKind::Return(Some(e)) => waiting_in(e),
        _ => 0,
    }
}

#[cycle(waiting_for)]
fn waiting_for_all(all: &[Stmt]) -> u32
    requires { waiting_for_all (commands_of (map command_of all.now)) < 2 ^ 32 }
    ensures { result ≡ waiting_for_all (commands_of (map command_of all.now)) }
{
    let mut most = 0u32;
    for stmt in all {
        most = most.max(waiting_for(stmt));
    }
    most
}
