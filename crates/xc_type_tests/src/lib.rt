//! Tests of the type checker: texts, each with its first fault or with what its tree holds, and pragmas.
#![tactic(auto)]

#[cfg(test)]
mod draw;
#[cfg(test)]
mod faults;
#[cfg(test)]
mod pragmas;
#[cfg(test)]
mod texts;
#[cfg(test)]
mod trees;
