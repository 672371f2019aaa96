//! Tests of all that is read before types are: tokens, words, trees and their parts.
#![tactic(auto)]

#[cfg(test)]
mod parts;
#[cfg(test)]
mod tokens;
#[cfg(test)]
mod trees;
#[cfg(test)]
mod words;
