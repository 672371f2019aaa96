//! The theorem, for any program.

ghost use Rattle.xc_commute_histories.specs.Runs.{Program, Quiet, AnswersFit, OneLoop};
ghost use Rattle.xc_commute_histories.specs.GoesBack.{GoesBack};

/// A program of several threads, by its relations alone: its actions, memories and the states of its threads, the cells of each
/// loop at the memory of its Enter, and which actions are traps.
pub trait Threads {
    ghost Action: { Type 0 };

    ghost Memory: { Type 0 };

    ghost State: { Type 0 };

    ghost program: { Program Action Memory State };

    ghost cells: { State → Memory → Action → Type 0 };

    ghost traps: { Action → Type 0 };
}

/// Every team run of a quiet program goes back to a source run, if each loop by itself does what its serial trace does.
pub fn team_runs_go_back<P: Threads>()
    requires quiet { Quiet P.program P.cells }
    requires answers { AnswersFit P.program P.cells }
    requires each_loop { OneLoop P.program P.cells P.traps }
    ensures { GoesBack P.program P.traps }
{}
