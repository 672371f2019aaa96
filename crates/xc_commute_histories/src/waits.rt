//! Why Quiet counts the accesses at which a thread waits.

ghost use Rattle.std.specs.Prelude.{◌≡◌, ◌≢◌, ℕ, List, []};
ghost use Rattle.xc_commute_histories.specs.Runs.{Stand, Free, Does, Plain, TeamRun, Source};
ghost use Rattle.xc_commute_histories.specs.Counter.{Deed, Two, Spot, Ended, program, QuietOfActions};

/// A program whose source runs have no action that conflicts with an open loop, and none of which ends, while a team run does.
pub fn waits_for_a_loop_that_traps()
    ensures quiet { QuietOfActions }
    ensures never_ends { (h : List (ℕ × Deed)) (s : ℕ → Stand Spot Two) (m : Two) → Source program h s m → s 0 ≢ Free Ended }
    ensures ends { (r : ℕ → Does Spot) × (v : List (ℕ × Deed)) × (m : Two) × (r 0 ≡ Plain Ended) × (r 1 ≡ Plain Ended) × TeamRun program r [] v m }
{}
