//! A program that meets what the theorem asks.

ghost use Rattle.std.specs.Prelude.{◌≡◌, ℕ, List, [], ◌∷◌, true};
ghost use Rattle.xc_commute_histories.specs.Runs.{Does, Plain, TeamRun};
ghost use Rattle.xc_commute_histories.specs.GoesBack.{GoesBack};
ghost use Rattle.xc_commute_histories.specs.TwoFills.{Fill, Flags, Stage, Over, Begin, two_fills};

use crate::theorem::{Threads, team_runs_go_back};

/// A loop of two iterations, each of which fills a flag of its own.
pub struct TwoFills;

impl Threads for TwoFills {
    ghost Action = { Fill };

    ghost Memory = { Flags };

    ghost State = { Stage };

    ghost program = { two_fills };

    ghost cells = { λ t e a. Unit {0} };

    ghost traps = { λ a. ⊥ };
}

/// Its team runs, in either order of the iterations, go back to source runs; and it has one that ends.
pub fn two_fills_go_back()
    ensures back { GoesBack two_fills (λ a. ⊥) }
    ensures ends { (r : ℕ → Does Stage) × (v : List (ℕ × Fill)) × (r 0 ≡ Plain Over) × TeamRun two_fills r [] v (record { zeroth = true; first = true }) }
{
    team_runs_go_back::<TwoFills>();
}
