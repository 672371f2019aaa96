//! Plans: how each loop is to be run.
use crate::LoopId;
use crate::certificate::{Letter, LoopCert, Op};
use sqlite_items::Items;
use xc_tree::{NotNormal, Schedule};

/// How the iterations of a parallel loop are dealt out, and how many streams are asked for.
#[derive(Clone, Copy)]
pub struct Dealing {
    pub schedule: Schedule,
    /// From 1 to 8,192.
    pub streams: u32,
}

/// What keeps a loop from being analysed.
#[derive(Clone, Copy)]
pub enum Obstacle {
    /// It is not in normal form, for this reason.
    Form(NotNormal),
    /// It has more than 512 references.
    Size,
}

/// A variable that the listing names, by its number.
#[derive(Clone, Copy)]
pub enum Variable {
    /// A local of the loop's function.
    Local(u32),
    /// An object at file scope.
    Global(u32),
}

/// The statements `first` to `end` - 1 of a distributed loop's body, and how they are run.
#[derive(Clone, Copy)]
pub struct Part {
    pub first: u32,
    pub end: u32,
    pub letter: Letter,
}

/// Two references that may depend, by their numbers, and a byte offset in the line of each.
#[derive(Clone, Copy)]
pub struct Conflict {
    pub a: u32,
    pub b: u32,
    pub a_at: u32,
    pub b_at: u32,
}

/// Why a loop has its letter, with all that the listing's text tells of it: a variant for each letter.
/// `at` is a byte offset of the source, in the line that is told.
#[derive(Drop)]
pub enum Reason {
    /// `X`: serial by pragma.
    Pragma,
    /// `p`: parallel by the programmer's assertion.
    Asserted(Dealing),
    /// `I`: serial inside this loop, the nearest automatic one.
    Inside(LoopId),
    /// `U`: serial, since it is not in normal form or too large.
    NotNormal(Obstacle),
    /// `Y`: where the first tagged access, generic function, future or Concurrent loop begins.
    Synchronised {
        at: u32,
    },
    /// `C`: where the first print, call, inner loop or addressed object that is not allowed begins.
    Calling {
        at: u32,
    },
    /// `Q`: where the first changing address or inner bound begins.
    Changing {
        at: u32,
    },
    /// `P`: parallel.
    Parallel(Dealing),
    /// `n`: parallel by a trusted assertion on its pointers.
    Trusted(Dealing),
    /// `R`: parallel, with these reductions in ascending order of their locals.
    Reducing {
        reductions: Items<Reduction>,
        dealing: Dealing,
    },
    /// `L`: parallel, as a linear recurrence of a scalar or a named array.
    Recurring {
        target: Variable,
        dealing: Dealing,
    },
    /// `D`: distributed over these parts, in order.
    Distributed {
        parts: Items<Part>,
        dealing: Dealing,
    },
    /// `V`: serial, since this local, the first such one, is neither private nor a reduction.
    Carried(u32),
    /// `A`: serial, since two references of different roots may be aliases.
    Aliased(Conflict),
    /// `S`: serial, since two references may depend.
    Dependent(Conflict),
}

/// A value that the guard of a loop tests at the loop's entry.
#[derive(Clone, Copy)]
pub enum Operand {
    /// The value of a local.
    Local(u32),
    /// The value of a global.
    Global(u32),
    /// The value of that loop's first clause.
    Lower(LoopId),
    /// The value of the bound in that loop's test.
    Upper(LoopId),
    /// The address of a local.
    LocalAddress(u32),
    /// The address of a global.
    GlobalAddress(u32),
}

/// A guard holds where each operand of `ranges` is from -2^31 to 2^31, and where the words of each
/// pair in `apart` have different segment numbers.
#[derive(Drop)]
pub struct Guard {
    pub ranges: Items<Operand>,
    pub apart: Items<(Operand, Operand)>,
}

/// Where a part stands of the right side of a recurrence.
#[derive(Clone, Copy)]
pub enum Side {
    /// Left of the other operand.
    Left,
    /// Right of it.
    Right,
    /// Nowhere.
    Absent,
}

/// What a recurrence computes.
#[derive(Clone, Copy)]
pub enum Target {
    /// A local.
    Scalar(u32),
    /// An array, by the numbers of its write and its read.
    Array { write: u32, read: u32 },
}

/// A linear recurrence y = c * y + e of the statements `first` to `end` - 1. `c` and `e` tell on which
/// side of the product and of the sum they stand, and `minus` that the sum is a difference.
#[derive(Clone, Copy)]
pub struct Recurrence {
    pub first: u32,
    pub end: u32,
    pub statement: u32,
    pub target: Target,
    pub c: Side,
    pub e: Side,
    pub minus: bool,
}

/// A local into which the iterations' values are combined.
#[derive(Clone, Copy)]
pub struct Reduction {
    pub local: u32,
    pub op: Op,
}

/// What is found out of a scalar that a loop assigns.
#[derive(Clone, Copy)]
pub enum Found {
    /// Each read follows an assignment of the same iteration; `last` where its last value is kept.
    Private { last: bool },
    /// Each of its assignments is a whole statement.
    Candidate,
    /// Neither.
    Carried,
}

/// The scalars that a loop assigns, by their numbers among the locals.
#[derive(Drop)]
pub struct Classes {
    pub scalars: Items<(u32, Found)>,
}

/// How one loop is to be run: as `scans` its recurrences, and in parallel where its guard holds.
#[derive(Drop)]
pub struct LoopPlan {
    pub letter: Letter,
    pub reason: Reason,
    pub cert: Option<LoopCert>,
    pub scans: Items<Recurrence>,
    pub guard: Guard,
}

/// How the loops of a program are to be run, in text order.
#[derive(Drop)]
pub struct Plan {
    pub loops: Items<LoopPlan>,
}
