//! How many nodes the tree of a text has, by how many tokens the text has.
#![tactic(auto)]
