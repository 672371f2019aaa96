//! Choosers, which name the stream that steps next.

ghost use Rattle.std.specs.Prelude.{◌≡◌, ◌*◌, ◌+◌, ◌%◌, ◌^◌, ℕ, List, Option};
ghost use Rattle.xc_sched.specs.Streams.{streams_of};
ghost use Rattle.xc_sched.specs.Choices.{next_seed as seed_after};

use crate::ready::Ready;
use std::marker::Model;

/// What names the stream that steps next.
pub trait Chooser {
    /// How a chooser, the ready streams in ascending order, the answer and the chooser after it
    /// belong together.
    ghost picks: { Self → List ℕ → Option ℕ → Self → Type 0 };

    /// The stream that steps next, or none.
    fn next(&mut self, ready: &Ready) -> Option<u32>
        ensures { picks self.old (streams_of ready.now) result self.new };
}

/// Chooses the lowest ready stream above the last one that was chosen, else the lowest ready one.
///
/// Contracts see the stream after the last one that was chosen, at first 0.
#[derive(Drop)]
pub struct RoundRobin {
    from: u32,
}

impl Model for RoundRobin {
    ghost use Rattle.std.specs.Prelude.{ℕ};

    ghost Value = { ℕ };

    ghost view = { λ r. r.from };
}

impl RoundRobin {
    pub fn new() -> RoundRobin
        ensures { result ≡ 0 }
    {
        RoundRobin { from: 0 }
    }
}

impl Default for RoundRobin {
    fn default() -> RoundRobin {
        RoundRobin::new()
    }
}

impl Chooser for RoundRobin {
    ghost use Rattle.xc_sched.specs.Choices.{PicksInTurn};

    ghost picks = { PicksInTurn };

    fn next(&mut self, ready: &Ready) -> Option<u32> {
        let chosen = match ready.lowest_from(self.from) {
            None => ready.lowest_from(0),
            above => above,
        };
        if let Some(stream) = chosen {
            self.from = stream + 1;
        }
        chosen
    }
}

/// Chooses by a linear congruential generator.
///
/// Contracts see the generator's state.
#[derive(Drop)]
pub struct Seeded {
    x: u64,
}

impl Model for Seeded {
    ghost use Rattle.std.specs.Prelude.{ℕ};

    ghost Value = { ℕ };

    ghost view = { λ s. s.x };
}

impl Seeded {
    pub fn new(seed: u64) -> Seeded
        ensures { result ≡ seed }
    {
        Seeded { x: seed }
    }
}

impl Chooser for Seeded {
    ghost use Rattle.xc_sched.specs.Choices.{PicksBySeed};

    ghost picks = { PicksBySeed };

    fn next(&mut self, ready: &Ready) -> Option<u32> {
        self.x = next_seed(self.x);
        let count = ready.count();
        if count == 0 {
            return None;
        }
        ready.nth((self.x >> 33) as u32 % count)
    }
}

/// The generator's next state; the multiplier and the increment are those of Knuth's MMIX.
pub fn next_seed(x: u64) -> u64
    ensures { result ≡ seed_after x }
{
    x.wrapping_mul(6_364_136_223_846_793_005)
        .wrapping_add(1_442_695_040_888_963_407)
}
