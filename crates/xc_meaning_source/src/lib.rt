//! Source runs: what the threads of a program do together; the cells and the work of its loops, and the premises on its runs. The
//! crate has definitions and laws alone.
#![tactic(auto)]

ghost use Rattle.xc_meaning_source.specs.Laws.{SourceRunsAreClosed, WorldIsThatAfter};

/// A source run that is cut off anywhere is one, and the world at its end is told by its events.
pub fn source_runs_are_closed()
    ensures runs { SourceRunsAreClosed }
    ensures worlds { WorldIsThatAfter }
{}
