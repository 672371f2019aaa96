//! What stands where in a node of the untyped tree: its span, its names and its operators. A node has what its rule
//! says; of a node of another rule each call still answers as its contract says.
#![tactic(auto)]

mod names;
mod operators;
mod places;
mod spans;
mod words;

pub use names::{
    callee_name, captured_names, declarator_name, member_name, parameter_name, struct_name,
};
pub use operators::{
    Assignment, Operator, Prefix, Suffix, assign_operator, binary_operator, postfix_operator,
    prefix_operator, step_op,
};
pub use places::{Brackets, PlaceStep, first_brackets, place_steps};
pub use spans::{behind, declarator_span, span_of, spot, word_at};
pub use words::{between, specifier_words, star_words};
