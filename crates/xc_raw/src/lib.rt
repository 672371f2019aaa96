//! The untyped tree of a text, and the words that its grammar tells apart.
#![tactic(auto)]

mod rule;
mod tree;
mod word;

pub use rule::{Level, Rule};
pub use tree::Raw;
pub use word::{
    Access, AssignOp, BinaryOp, Complement, Literal, Qualifier, Sign, Specifier, Step, Word,
    word_of,
};
