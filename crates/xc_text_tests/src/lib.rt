//! Tests of lines, their numbers and words, and of what `printf` prints.
#![tactic(auto)]

#[cfg(test)]
mod formats;
#[cfg(test)]
mod lines;
