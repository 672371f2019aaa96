//! Laws of the definitions. Each is the contract of a function that does nothing.

ghost use Rattle.xc_gen_straight.specs.Trees.{StraightTrees};

/// A tree whose forms all have code stands for the same straight program by itself and as a program of the whole language.
pub fn straight_trees_agree()
    ensures { StraightTrees }
{}
