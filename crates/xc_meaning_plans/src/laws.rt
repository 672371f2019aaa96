//! Samples of the definitions: the contract of a function that does nothing.

ghost use Rattle.xc_lin.specs.declared.plan.Reason.{Reason};
ghost use Rattle.xc_meaning_plans.specs.Samples.{reading, shifting, side_by_side};
ghost use Rattle.xc_meaning_plans.specs.Sound.{CellsAreSound};

/// Iterations that only read may run side by side; those of which one writes what the next one reads may not.
pub fn samples()
    ensures reads { (why : Reason) → CellsAreSound 1 (side_by_side why) reading }
    ensures shifts { (why : Reason) → CellsAreSound 1 (side_by_side why) shifting → ⊥ }
{}
