//! Constants 0 as null pointers.

ghost use Rattle.std.specs.Prelude.{◌≡◌, IfOk};
ghost use Rattle.xc_type_rule.specs.Nulls as nulls;

use crate::found::{Found, Known};
use crate::make::typed;
use crate::types::{is_number, is_pointer};
use std::alloc::{AllocError, Global};
use xc_hold::both;
use xc_tree::{Expr, ExprKind, Ty, copy_ty};
use xc_tree_words::constant;

#[tactic(auto, unfolding(crate::specs::Nulls::is_zero))]
fn is_zero(made: &Option<Expr>) -> bool
    ensures { result ≡ nulls.is_zero made.now }
{
    match made {
        None => false,
        Some(e) => match constant(e) {
            Some(n) => n == 0,
            None => false,
        },
    }
}

/// Whether it is a value of an integer type.
pub fn is_number_value(known: &Known) -> bool
    ensures { result ≡ nulls.is_number_value known.now }
{
    match known {
        Known::Value(ty) => is_number(ty),
        _ => false,
    }
}

/// Whether it is an integer constant with value 0.
pub fn is_null(found: &Found) -> bool
    ensures { result ≡ nulls.is_null found.now }
{
    is_number_value(&found.known) && is_zero(&found.made)
}

fn null(alloc: Global, to: &Ty, made: Option<Expr>) -> Result<Found, AllocError>
    ensures { IfOk result (λ r. r ≡ nulls.null to.now made) }
{
    match made {
        None => Ok(Found {
            known: Known::Value(copy_ty(alloc, to)?),
            made: None,
        }),
        Some(e) => {
            let span = e.span;
            drop(e);
            let (ty, same) = both(copy_ty(alloc, to), copy_ty(alloc, to))?;
            Ok(Found {
                known: Known::Value(ty),
                made: Some(typed(span, same, ExprKind::Const(0))),
            })
        }
    }
}

/// A value that is to be given to an object of the plain type `to`: a constant 0 becomes null where that is a pointer.
#[tactic(auto, unfolding(crate::specs::Nulls::given))]
pub fn given(alloc: Global, to: &Ty, found: Found) -> Result<Found, AllocError>
    ensures { IfOk result (λ r. r ≡ nulls.given to.now found) }
{
    if is_pointer(to) && is_null(&found) {
        let Found { known, made } = found;
        drop(known);
        return null(alloc, to, made);
    }
    Ok(found)
}

/// A value beside another: a constant 0 becomes null where the other is a pointer.
#[tactic(auto, unfolding(crate::specs::Nulls::against))]
pub fn against(alloc: Global, other: &Known, found: Found) -> Result<Found, AllocError>
    ensures { IfOk result (λ r. r ≡ nulls.against other.now found) }
{
    match other {
        Known::Value(ty) => given(alloc, ty, found),
        Known::Unknown { .. } => Ok(found),
        Known::Place { .. } => Ok(found),
    }
}
