//! The theorem, for any code.

ghost use Rattle.std.specs.Prelude.{ℕ};
ghost use Rattle.xc_isa.specs.declared.code.Code.{Code as CodeOf};
ghost use Rattle.xc_isa_streams.specs.Class.{Class};
ghost use Rattle.xc_isa_streams.specs.Promises.{NeverBad, AlwaysOwn, AlwaysFair, RunsStand};
ghost use Rattle.xc_isa_streams.specs.Parts.{SourcesApply};

/// Code, and whose the pointer in each register is: the source's, the stream's own, or of what streams share.
pub trait Streams {
    ghost code: { CodeOf };

    ghost class_of: { ℕ → Class };
}

/// Every run, on any number of processors and slots and in any order, stands for actions of threads, each of which makes its own alone, with the
/// replies of the list; the source's part of the memory and the shared one allow them. Each step leaves the list or adds an action to
/// it. A stream that has to wait waits for what it asks there. Threads may start at run time: a start is answered 1 exactly where a
/// slot is free, and else 0.
pub fn runs_stand<S: Streams>()
    requires own { AlwaysOwn S.class_of S.code }
    requires fair { AlwaysFair S.class_of S.code }
    ensures { RunsStand S.class_of S.code }
{}

/// It is enough for the first condition that no stream alone, however it is answered, touches as its own what is not its own.
pub fn never_bad_is_own<S: Streams>()
    requires { NeverBad S.class_of S.code }
    ensures { AlwaysOwn S.class_of S.code }
{}

/// The source's part of such a list of actions is one that the source's world allows.
pub fn sources_apply()
    ensures { SourcesApply }
{}
