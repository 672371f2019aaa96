//! Laws of the definitions. Each is the contract of a function that does nothing.

ghost use Rattle.xc_meaning_straight.specs.Straight.{SameRuns, SameTraces, SameWholes};

/// A straight program over global integers does what it does by its own definition, with whatever replies; its traces are the same,
/// and so are those that come to its end.
pub fn straight_programs()
    ensures runs { SameRuns }
    ensures traces { SameTraces }
    ensures wholes { SameWholes }
{}
