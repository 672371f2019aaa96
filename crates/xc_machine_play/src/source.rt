//! What chooses the streams of a run.

ghost use Rattle.std.specs.Prelude.{◌≡◌, Bool, false, nat_lt, length};

use xc_sched::{Chooser, Recorded, RoundRobin, Seeded};

/// What chooses the stream that steps next.
#[derive(Drop)]
pub enum Source {
    /// Round robin.
    Turns,
    /// A generator with this seed.
    Seed(u64),
    /// A list of steps.
    Schedule(Recorded),
}

/// A chooser that may have choices that were to be made.
pub trait Plan: Chooser + Drop {
    /// Whether choices are left that were to be made.
    ghost has_left: { Self → Bool };

    /// Whether choices are left that were to be made.
    fn is_left(&self) -> bool
        ensures { result ≡ has_left self.now };
}

impl Plan for RoundRobin {
    ghost has_left = { λ _. false };

    fn is_left(&self) -> bool {
        false
    }
}

impl Plan for Seeded {
    ghost has_left = { λ _. false };

    fn is_left(&self) -> bool {
        false
    }
}

impl Plan for Recorded {
    ghost has_left = { λ steps. nat_lt 0 (length steps) };

    fn is_left(&self) -> bool {
        self.left() > 0
    }
}
