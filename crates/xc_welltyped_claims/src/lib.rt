//! What is kept from one place of a text to a later one, what is claimed of its parts, the order of structs, and that
//! each node has the parts and words that its rule asks for.
#![tactic(auto)]
