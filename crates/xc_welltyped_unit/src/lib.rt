//! A text without faults makes a typed tree.
#![tactic(auto)]
