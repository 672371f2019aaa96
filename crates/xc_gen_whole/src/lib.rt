//! The code of straight trees stands for their programs of the whole language. The crate has no code.
#![tactic(auto)]

mod laws;

pub use laws::straight_code_stands;
