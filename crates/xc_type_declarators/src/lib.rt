//! The types that declarations give: specifiers, declarators, and the sizes of structs. Each call that allocates
//! answers `AllocError` for want of memory, and for a declarator of more than `MOST_DERIVATIONS` stars or bounds.
#![tactic(auto)]

mod declarators;
mod specifiers;

pub use declarators::{
    Bound, MOST_DERIVATIONS, Typing, array_parameter_typing, note_bounds, object_typing,
    pointer_typing, result_typing, scalar_typing, told,
};
pub use specifiers::specifier_type;
