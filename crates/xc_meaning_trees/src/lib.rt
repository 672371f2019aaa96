//! What typed trees stand for: programs as the meaning of the whole language is defined on them. The crate has no code.
#![tactic(auto)]

ghost use Rattle.xc_meaning_trees.specs.Samples.{Roots, TreeSamples};

/// Small typed trees stand for what they should, and their references go through what they should.
pub fn samples()
    ensures trees { TreeSamples }
    ensures references { Roots }
{}
