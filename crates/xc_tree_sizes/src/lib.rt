//! How large trees are.
#![tactic(auto)]
