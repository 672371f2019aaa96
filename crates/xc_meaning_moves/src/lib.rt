//! The abstract machine behind a serial run: a thread with a stack of its own, which does what the meaning says. The crate has
//! definitions and a theorem.
#![tactic(auto)]

ghost use Rattle.xc_meaning_moves.specs.Laws.{HaltsRightly, Interprets, OneOutcome, StepsAreTraces, TracesAgree};

/// The machine with a stack of its own does what `main` does, and stops with nothing else; so does any fuel that suffices. What
/// it has made after any number of moves is a trace of `main`. Two traces of `main` with the same replies differ only in where they are
/// cut off.
pub fn moves()
    ensures runs { Interprets }
    ensures halts { HaltsRightly }
    ensures once { OneOutcome }
    ensures steps { StepsAreTraces }
    ensures agree { TracesAgree }
{}
