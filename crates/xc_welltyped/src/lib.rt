//! When what is made of an expression is well typed, as it is known.
#![tactic(auto)]
