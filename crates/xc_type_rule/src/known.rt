//! Tests of what is known, which what is unknown passes.

ghost use Rattle.std.specs.Prelude.{◌≡◌, true};
ghost use Rattle.xc_tree.specs.Types.{is_number, is_plain, fits};
ghost use Rattle.xc_type_rule.specs.Tests.{is_unknown, may_be, may_be_place};

use crate::found::Known;
use crate::types::{fits, is_number, is_plain};
use xc_tree::Ty;

/// Whether its type is unknown.
pub fn is_unknown(known: &Known) -> bool
    ensures { result ≡ is_unknown known.now }
{
    matches!(known, Known::Unknown { .. })
}

/// Whether its type is unknown and it may name an object.
pub fn may_be_place(known: &Known) -> bool
    ensures { result ≡ may_be_place known.now }
{
    match known {
        Known::Unknown { place } => *place,
        _ => false,
    }
}

/// Whether it has a value of some type, `Void` among them, so that it is no struct.
#[tactic(auto, unfolding(crate::specs::Tests::may_be))]
pub fn may_be_used(known: &Known) -> bool
    ensures { result ≡ may_be (λ ty. true) known.now }
{
    match known {
        Known::Unknown { .. } | Known::Value(_) => true,
        Known::Place { .. } => false,
    }
}

/// Whether it is an integer.
#[tactic(auto, unfolding(crate::specs::Tests::may_be))]
pub fn may_be_number(known: &Known) -> bool
    ensures { result ≡ may_be is_number known.now }
{
    match known {
        Known::Unknown { .. } => true,
        Known::Value(ty) => is_number(ty),
        Known::Place { .. } => false,
    }
}

/// Whether it is an integer or a pointer.
#[tactic(auto, unfolding(crate::specs::Tests::may_be))]
pub fn may_be_plain(known: &Known) -> bool
    ensures { result ≡ may_be is_plain known.now }
{
    match known {
        Known::Unknown { .. } => true,
        Known::Value(ty) => is_plain(ty),
        Known::Place { .. } => false,
    }
}

/// Whether it may be given to a plain object of type `to` (C99 6.5.16.1).
#[tactic(auto, unfolding(crate::specs::Tests::may_be))]
pub fn may_fit(to: &Ty, known: &Known) -> bool
    ensures { result ≡ may_be (fits to.now) known.now }
{
    match known {
        Known::Unknown { .. } => true,
        Known::Value(ty) => fits(to, ty),
        Known::Place { .. } => false,
    }
}
