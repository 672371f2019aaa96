//! The table of structs agrees with the cells of a program that has them.
#![tactic(auto)]
