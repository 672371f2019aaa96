//! Affine forms, the forms of loops, labels and operators, each call with its contract once more: an edit shows what the
//! contract refuses.
#![tactic(auto)]

mod labels;
mod lines;
mod loops;
mod words;

pub use labels::two_cases;
pub use lines::{divisor, extremes, has_points, sum};
pub use loops::{concurrent, effects, normal, pures, unstable};
pub use words::{binary, unary, works_on_uint};
