//! Tests of the program: what its command lines leave, and of the files and streams that it reads and writes.
#![tactic(auto)]

#[cfg(test)]
mod edges;
#[cfg(test)]
mod lines;
