//! The untyped tree.

use crate::rule::Rule;
use sqlite_items::Items;

/// A node of a rule. It covers the tokens from `first` up to `end`, which are numbers of tokens of the text.
#[derive(Drop)]
pub struct Raw {
    pub rule: Rule,
    pub first: u32,
    pub end: u32,
    pub parts: Items<Raw>,
}
