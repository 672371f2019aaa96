//! Affine subscripts and what they can be, and the certificates and plans that rest on them.
#![tactic(auto)]

pub mod affine;
pub mod bounds;
pub mod certificate;
pub mod divisor;
pub mod plan;
pub mod region;

pub use affine::{Affine, Term, TooWide, Var};
pub use bounds::{extremes, has_points};
pub use certificate::{
    Answers, Certs, Class, CrossCert, Letter, LoopCert, Op, PairCert, PartCert, ScalarCert, Why,
};
pub use divisor::gcd;
pub use plan::{
    Classes, Conflict, Dealing, Found, Guard, LoopPlan, Obstacle, Operand, Part, Plan, Reason,
    Recurrence, Reduction, Side, Target, Variable,
};
pub use region::{Range, Region, Tie};
pub use xc_tree::LoopId;
