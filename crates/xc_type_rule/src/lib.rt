//! What is known of an expression whose types are being found, and the faults of a text.
#![tactic(auto)]

mod fault;
mod found;
mod known;
mod make;
mod null;
mod size;
mod types;
mod value;

pub use fault::{Breach, Fault, note, note_name, note_type};
pub use found::{Found, Known, Member, Thing};
pub use known::{is_unknown, may_be_number, may_be_place, may_be_plain, may_be_used, may_fit};
pub use make::{
    declared_place, found_by, place_by, place_from, spanned, typed, unknown_place, unknown_value,
    value_from,
};
pub use null::{against, given, is_null, is_number_value};
pub use size::cells;
pub use types::{
    base, base_of, both_numbers, common_type, fits, is_number, is_plain, is_pointer, is_uint,
    is_void, same_ty,
};
pub use value::{note_lost, rvalue};
