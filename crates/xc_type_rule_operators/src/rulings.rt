//! What the rules say that take the type of the whole from one operand.

ghost use Rattle.std.specs.Prelude.{◌≡◌, cond};
ghost use Rattle.xc_tree.specs.Types.{base, is_plain};
ghost use Rattle.xc_type_rule.specs.Tests.{may_be};
ghost use Rattle.xc_tree.specs.Typed.{sort_of, update_ok};
ghost use Rattle.xc_type_rule_operators.specs.Rulings as spec;

use xc_tree::{BinOp, Ty, UnOp};
use xc_type_rule::{
    Known, is_number, is_plain, may_be_number, may_be_place, may_be_plain, may_be_used, may_fit,
};

#[tactic(auto, unfolding(crate::specs::Rulings::ruled))]
fn ruled(keeps: bool, ty: Ty) -> Option<Known>
    ensures { result ≡ spec.ruled keeps ty }
{
    if keeps {
        Some(Known::Value(ty))
    } else {
        drop(ty);
        None
    }
}

#[tactic(auto, unfolding(crate::specs::Rulings::unruled))]
fn unruled(keeps: bool) -> Option<Known>
    ensures { result ≡ spec.unruled keeps }
{
    if keeps {
        Some(Known::Unknown { place: false })
    } else {
        None
    }
}

#[tactic(auto, unfolding(crate::specs::Rulings::unary_type))]
fn unary_type(op: UnOp, ty: Ty) -> Option<Known>
    ensures { result ≡ spec.unary_type op ty }
{
    match op {
        UnOp::Not => {
            let keeps = is_plain(&ty);
            drop(ty);
            ruled(keeps, Ty::Int)
        }
        UnOp::Neg | UnOp::Complement | UnOp::Cast => ruled(is_number(&ty), ty),
    }
}

#[tactic(auto, unfolding(crate::specs::Rulings::unary_unknown))]
fn unary_unknown(op: UnOp) -> Known
    ensures { result ≡ spec.unary_unknown op }
{
    match op {
        UnOp::Not => Known::Value(Ty::Int),
        UnOp::Neg | UnOp::Complement | UnOp::Cast => Known::Unknown { place: false },
    }
}

#[tactic(auto, unfolding(crate::specs::Rulings::unary_ruling))]
pub(crate) fn unary_ruling(op: UnOp, of: Known) -> Option<Known>
    ensures { result ≡ spec.unary_ruling op of }
{
    match of {
        Known::Unknown { place: _ } => Some(unary_unknown(op)),
        Known::Value(ty) => unary_type(op, ty),
        Known::Place { ty, within: _ } => {
            drop(ty);
            None
        }
    }
}

#[tactic(auto, unfolding(crate::specs::Rulings::cast_ruling))]
pub(crate) fn cast_ruling(to: Option<Ty>, of: &Known) -> Option<Known>
    ensures { result ≡ spec.cast_ruling to of.now }
{
    match to {
        None => unruled(may_be_number(of)),
        Some(ty) => ruled(is_number(&ty) && may_be_number(of), ty),
    }
}

#[tactic(auto, unfolding(crate::specs::Rulings::logic_ruling))]
pub(crate) fn logic_ruling(a: &Known, b: &Known) -> Option<Known>
    ensures { result ≡ spec.logic_ruling a.now b.now }
{
    ruled(may_be_plain(a) && may_be_plain(b), Ty::Int)
}

#[tactic(auto, unfolding(crate::specs::Rulings::comma_ruling))]
pub(crate) fn comma_ruling(a: &Known, b: Known) -> Option<Known>
    ensures { result ≡ spec.comma_ruling a.now b }
{
    match b {
        Known::Unknown { place: _ } => unruled(may_be_used(a)),
        Known::Value(ty) => ruled(may_be_used(a), ty),
        Known::Place { ty, within: _ } => {
            drop(ty);
            None
        }
    }
}

/// A scalar's type without its qualifier.
fn unqualified(ty: Ty) -> Option<Ty>
    ensures { result ≡ base ty }
{
    match ty {
        Ty::Void | Ty::Array(_, _) | Ty::Struct(_) => None,
        Ty::Int => Some(Ty::Int),
        Ty::Uint => Some(Ty::Uint),
        Ty::Ptr(to) => Some(Ty::Ptr(to)),
        Ty::Sync(of) => Some(of.into_inner()),
        Ty::Future(of) => Some(of.into_inner()),
    }
}

/// The type of the values that are given to this place.
#[tactic(auto, unfolding(crate::specs::Rulings::target))]
pub(crate) fn target(to: Known) -> Option<Ty>
    ensures { result ≡ spec.target to }
{
    match to {
        Known::Unknown { place: _ } => None,
        Known::Value(ty) => {
            drop(ty);
            None
        }
        Known::Place { ty, within: _ } => unqualified(ty),
    }
}

#[tactic(auto, unfolding(crate::specs::Rulings::given_ruling))]
fn given_ruling(to: Option<Ty>, value: &Known) -> Option<Known>
    ensures { result ≡ spec.given_ruling to value.now }
{
    match to {
        None => None,
        Some(ty) => ruled(may_fit(&ty, value), ty),
    }
}

/// The ruling on `=`; `unsure` says whether an unknown may be the place.
pub(crate) fn assign_ruling(unsure: bool, ty: Option<Ty>, value: &Known) -> Option<Known>
    ensures { result ≡ cond unsure (spec.unruled (may_be is_plain value.now)) (spec.given_ruling ty value.now) }
{
    if unsure {
        drop(ty);
        return unruled(may_be_plain(value));
    }
    given_ruling(ty, value)
}

fn update_fits(op: BinOp, ty: &Ty) -> bool
    ensures { result ≡ update_ok (sort_of op) ty.now }
{
    match op {
        BinOp::Add | BinOp::Sub => is_plain(ty),
        BinOp::Lt | BinOp::Gt | BinOp::Le | BinOp::Ge | BinOp::Eq | BinOp::Ne => false,
        _ => is_number(ty),
    }
}

#[tactic(auto, unfolding(crate::specs::Rulings::updated_ruling))]
fn updated_ruling(op: BinOp, to: Option<Ty>, value: &Known) -> Option<Known>
    ensures { result ≡ spec.updated_ruling (sort_of op) to value.now }
{
    match to {
        None => None,
        Some(ty) => ruled(update_fits(op, &ty) && may_be_number(value), ty),
    }
}

#[tactic(auto, unfolding(crate::specs::Rulings::update_ruling))]
pub(crate) fn update_ruling(op: BinOp, to: Known, value: &Known) -> Option<Known>
    ensures { result ≡ spec.update_ruling (sort_of op) to value.now }
{
    if may_be_place(&to) {
        drop(to);
        return unruled(may_be_number(value));
    }
    updated_ruling(op, target(to), value)
}
