//! What rules make names no more locals than their parts do, and has the places of locals that are values only where
//! they are accessed.
#![tactic(auto)]
