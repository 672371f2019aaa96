//! How much a text declares, by how many tokens it has.
#![tactic(auto)]
