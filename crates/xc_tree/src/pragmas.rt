//! What the pragmas before a loop set.

ghost use Rattle.std.specs.Prelude.{⊤, [], ◌∷◌, codes};

use bitflags::{Flag, Flags, bitflag_items};
use sqlite_items::Items;
use xc_text_place::Span;

/// Which pragmas stand before a loop: `assert parallel`, `loop serial`, `assert nodep`, `assert noalias`, `use` and a
/// schedule.
#[derive(Clone, Copy, PartialEq, Eq, Debug)]
pub struct Marks(u8);

bitflag_items! {
    impl Marks: u8 {
        const PARALLEL = 1;
        const SERIAL = 2;
        const NODEP = 4;
        const NOALIAS = 8;
        const STREAMS = 16;
        const SCHEDULE = 32;
    }
}

impl Flags for Marks {
    type Bits = u8;

    ghost exact = { ⊤ };

    ghost table = { (codes "PARALLEL", 1) ∷ (codes "SERIAL", 2) ∷ (codes "NODEP", 4)
        ∷ (codes "NOALIAS", 8) ∷ (codes "STREAMS", 16) ∷ (codes "SCHEDULE", 32) ∷ [] };

    ghost set_of = { λ p. p.0 };

    fn flags<'a>() -> &'a [Flag<Marks>] {
        Marks::FLAGS
    }

    fn bits(&self) -> u8 {
        self.0
    }

    fn from_bits_retain(bits: u8) -> Marks {
        Marks(bits)
    }
}

/// What an access goes through, by its number.
#[derive(Drop, Clone, Copy, PartialEq, Eq)]
pub enum Root {
    /// A named object at file scope.
    Global(u32),
    /// A named object of a function.
    Local(u32),
    /// A pointer variable at file scope.
    GlobalPointer(u32),
    /// A pointer variable of a function.
    LocalPointer(u32),
    /// None of these. No pragma names it.
    Other,
}

/// How the iterations of a loop are dealt out to the members of a team.
#[derive(Drop, Clone, Copy, PartialEq, Eq)]
pub enum Schedule {
    /// `block`: each member has one run of neighbouring iterations.
    Block,
    /// `interleave`: each member has every so many-th iteration.
    Interleave,
    /// `dynamic`: a member takes one iteration at a time.
    Dynamic,
    /// `block dynamic`: a member takes 16 iterations at a time.
    BlockDynamic,
}

/// What the pragmas before a loop set, and each of them with its mark.
#[derive(Drop)]
pub struct Pragmas {
    pub marks: Marks,
    /// References with these roots do not conflict between different iterations.
    pub nodep: Items<Root>,
    /// These pointers are in no segment of another root of the loop.
    pub noalias: Items<Root>,
    /// The streams that are asked for, from 1 to 8,192.
    pub streams: u32,
    pub schedule: Schedule,
    pub given: Items<(Span, Marks)>,
}
