//! Source runs of straight programs are the same by themselves and as programs of the whole language. The crate has definitions and
//! laws alone.
#![tactic(auto)]

ghost use Rattle.xc_meaning_straight_runs.specs.StraightRuns.{NoOtherRuns, SameEnds, SameSourceRuns, SameTicks, SameTraps};

/// A straight program has the same source runs by its own definition and as a program of the whole language, and they end, trap and
/// tick alike.
pub fn straight_runs()
    ensures runs { SameSourceRuns }
    ensures others { NoOtherRuns }
    ensures ends { SameEnds }
    ensures traps { SameTraps }
    ensures ticks { SameTicks }
{}
