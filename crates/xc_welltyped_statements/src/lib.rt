//! What initialisers and statements without faults make.
#![tactic(auto)]
