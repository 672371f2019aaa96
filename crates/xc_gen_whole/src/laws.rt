//! Laws of the definitions. Each is the contract of a function that does nothing.

ghost use Rattle.xc_gen_whole.specs.Whole.{CodeStands};

/// Code that stands for the source runs of a straight program stands for those of its tree by the meaning of the whole language.
pub fn straight_code_stands()
    ensures { CodeStands }
{}
