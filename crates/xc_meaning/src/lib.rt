//! What the threads of a typed program do: a program as plain data, and its meaning. The crate has definitions alone.
#![tactic(auto)]
