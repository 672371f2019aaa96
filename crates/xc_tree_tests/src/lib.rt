//! Tests over typed trees: copies, the forms of loops and what they do; and of the affine forms of subscripts.
#![tactic(auto)]

#[cfg(test)]
mod copies;
#[cfg(test)]
mod forms;
#[cfg(test)]
mod lines;
#[cfg(test)]
mod stable;
#[cfg(test)]
mod switches;
#[cfg(test)]
mod texts;
