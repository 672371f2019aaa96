//! Numbers within bounds.

ghost use Rattle.std.specs.Prelude.{◌≡◌, ◌≤◌};

use std::marker::Model;

/// A number from `LOW` to `HIGH`. Contracts see the number.
#[derive(Clone, Copy, PartialEq, Eq)]
pub struct Within<const LOW: u64, const HIGH: u64> {
    number: u64,
}

impl<const LOW: u64, const HIGH: u64> Model for Within<LOW, HIGH> {
    ghost use Rattle.std.specs.Prelude.{ℕ, ◌≤◌};

    ghost Value = { ℕ };

    ghost view = { λ n. n.number };

    ghost invariant = { λ n. (LOW ≤ n.number) × (n.number ≤ HIGH) };

    ghost inverse = { λ n. record { number = n } };
}

impl<const LOW: u64, const HIGH: u64> Within<LOW, HIGH> {
    pub fn new(number: u64) -> Within<LOW, HIGH>
        requires low { LOW ≤ number }
        requires high { number ≤ HIGH }
        ensures { result ≡ number }
    {
        Within { number }
    }

    pub fn number(self) -> u64
        ensures value { result ≡ self.entry }
        ensures low { LOW ≤ result }
        ensures high { result ≤ HIGH }
    {
        self.number
    }
}

const MOST_STEPS: u64 = 1 << 31;

const MOST_WORDS: u64 = 1 << 24;

const MOST_OUT: u64 = 1 << 20;

/// A number of processors.
pub type Processors = Within<1, 64>;

/// A number of streams on each processor.
pub type Streams = Within<1, 128>;

/// A number of steps.
pub type Steps = Within<0, MOST_STEPS>;

/// A number of live words.
pub type WordLimit = Within<1, MOST_WORDS>;

/// A number of bytes of output.
pub type OutLimit = Within<0, MOST_OUT>;
