//! What is made of operands, if they are made.

ghost use Rattle.std.specs.Prelude.{◌≡◌, IfOk, OnOk, option_map};
ghost use Rattle.xc_type_rule.specs.Least.{least_from};
ghost use Rattle.xc_type_rule.specs.Making as making;
ghost use Rattle.xc_type_rule_operators.specs.Operators as spec;
ghost use Rattle.xc_type_rule_operators.specs.Pairs.{pair_kind};

use crate::logic::Logic;
use sqlite_items::Boxed;
use std::alloc::{AllocError, Global};
use xc_hold::{both, kept};
use xc_text_place::Span;
use xc_tree::{BinOp, Expr, ExprKind, UnOp};
use xc_type_rule::{Fault, Found, Known, found_by};

/// The forms with two operands.
#[derive(Clone, Copy)]
pub(crate) enum Pair {
    Binary(BinOp),
    Logic(Logic),
    Comma,
    Write,
    Update { op: BinOp, post: bool },
}

/// Both operands in boxes, if both are made.
#[tactic(auto, unfolding(xc_type_rule::specs::Making::both))]
fn boxed(
    alloc: Global,
    a: Option<Expr>,
    b: Option<Expr>,
) -> Result<Option<(Boxed<Expr>, Boxed<Expr>)>, AllocError>
    ensures { IfOk result (λ r. r ≡ making.both (λ x y. (x, y)) a b) }
{
    match (a, b) {
        (Some(a), Some(b)) => Ok(Some(both(Boxed::new(alloc, a), Boxed::new(alloc, b))?)),
        (None, None) => Ok(None),
        (None, Some(b)) => {
            drop(b);
            Ok(None)
        }
        (Some(a), None) => {
            drop(a);
            Ok(None)
        }
    }
}

#[tactic(auto, unfolding(crate::specs::Operators::logic_kind, crate::specs::Operators::write_of))]
fn pair_kind(form: Pair, a: Boxed<Expr>, b: Boxed<Expr>) -> ExprKind
    ensures { result ≡ pair_kind form a b }
{
    match form {
        Pair::Binary(op) => ExprKind::Binary { op, a, b },
        Pair::Logic(Logic::And) => ExprKind::And(a, b),
        Pair::Logic(Logic::Or) => ExprKind::Or(a, b),
        Pair::Comma => ExprKind::Comma(a, b),
        Pair::Write => ExprKind::Write {
            kind: a.get().ty.write_kind(),
            place: a,
            value: b,
        },
        Pair::Update { op, post } => ExprKind::Update {
            op,
            post,
            place: a,
            value: b,
        },
    }
}

#[tactic(auto, unfolding(xc_type_rule::specs::Making::both))]
fn made_of(
    alloc: Global,
    form: Pair,
    a: Option<Expr>,
    b: Option<Expr>,
) -> Result<Option<ExprKind>, AllocError>
    ensures { IfOk result (λ r. r ≡ making.both (pair_kind form) a b) }
{
    match boxed(alloc, a, b)? {
        None => Ok(None),
        Some((a, b)) => Ok(Some(pair_kind(form, a, b))),
    }
}

/// What a ruling on two operands makes of them.
pub(crate) fn paired(
    alloc: Global,
    span: Span,
    ruling: Option<Known>,
    form: Pair,
    a: Option<Expr>,
    b: Option<Expr>,
    first: &mut Option<Fault>,
) -> Result<Found, AllocError>
    ensures part { IfOk result (λ r. r ≡ making.found_by span ruling (making.both (pair_kind form) a b)) }
    ensures first { OnOk result (first.new ≡ least_from first.old (making.faults_by span ruling)) }
{
    let (kind, ruling) = kept(made_of(alloc, form, a, b), ruling)?;
    found_by(alloc, span, ruling, kind, first)
}

pub(crate) fn unary_kind(
    alloc: Global,
    op: UnOp,
    made: Option<Expr>,
) -> Result<Option<ExprKind>, AllocError>
    ensures { IfOk result (λ r. r ≡ option_map (ExprKind.Unary op) made) }
{
    match made {
        None => Ok(None),
        Some(e) => Ok(Some(ExprKind::Unary {
            op,
            of: Boxed::new(alloc, e)?,
        })),
    }
}

#[tactic(auto, unfolding(crate::specs::Operators::cond_kind, xc_type_rule::specs::Making::both))]
pub(crate) fn cond_kind(
    alloc: Global,
    test: Option<Expr>,
    a: Option<Expr>,
    b: Option<Expr>,
) -> Result<Option<ExprKind>, AllocError>
    ensures { IfOk result (λ r. r ≡ spec.cond_kind test a b) }
{
    match test {
        None => {
            drop((a, b));
            Ok(None)
        }
        Some(test) => {
            let (test, branches) = both(Boxed::new(alloc, test), boxed(alloc, a, b))?;
            match branches {
                None => Ok(None),
                Some((then, other)) => Ok(Some(ExprKind::Cond { test, then, other })),
            }
        }
    }
}
