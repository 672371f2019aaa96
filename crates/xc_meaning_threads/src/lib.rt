//! What the threads of a program do: the meaning of the whole language as a function of the replies, and the traces of threads. The
//! crate has definitions and laws alone.
#![tactic(auto)]

ghost use Rattle.xc_meaning_threads.specs.Steady.{EndsAreWhole, RunsAreTraces, TracesAreClosed};

/// A trace that is cut off anywhere is a trace, and what a task does with any replies is one, whole where it ends.
pub fn traces_are_closed()
    ensures traces { TracesAreClosed }
    ensures made { RunsAreTraces }
    ensures whole { EndsAreWhole }
{}
