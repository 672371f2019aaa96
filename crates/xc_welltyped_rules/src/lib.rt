//! What the rules of operators, names, places and calls make is well typed where its parts are: the lemmas of `proofs/`.
#![tactic(auto)]
