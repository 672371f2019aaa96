//! Programs of several threads over tagged memory, whose loops may run as teams.

ghost use Rattle.xc_word.specs.Cells.{Segments};
ghost use Rattle.xc_commute_histories.specs.Runs.{Program, AnswersFit, OneLoop};
ghost use Rattle.xc_commute_histories.specs.GoesBack.{GoesBack};
ghost use Rattle.xc_commute.specs.Threads.{Deed, State, IsTrap, IsQuiet, ActsOnMemory};

/// A program, by its relations alone, and the cells of each loop at the memory of its Enter.
pub trait MemoryThreads {
    ghost program: { Program Deed Segments State };

    ghost cells: { State → Segments → Deed → Type 0 };
}

/// Every team run of a quiet program goes back to a source run, if each of its loops by itself does what its serial trace does.
pub fn memory_teams_go_back<P: MemoryThreads>()
    requires memory { ActsOnMemory P.program }
    requires quiet { IsQuiet P.program P.cells }
    requires answers { AnswersFit P.program P.cells }
    requires each_loop { OneLoop P.program P.cells IsTrap }
    ensures { GoesBack P.program IsTrap }
{}
