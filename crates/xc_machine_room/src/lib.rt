//! A run with room for its steps, its words and its output comes to its end: the lemmas of `proofs/`.
#![tactic(auto)]
