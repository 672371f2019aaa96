//! Certificates: for each loop that is run in parallel, why its iterations do not depend on one another.
use crate::LoopId;
use sqlite_items::Items;

/// How a loop, or a part of one, is run, and by which rule. The listing has a letter for each.
#[derive(Clone, Copy)]
pub enum Letter {
    /// `X`: serial by pragma.
    Pragma,
    /// `p`: parallel by the programmer's assertion.
    Asserted,
    /// `I`: serial inside an automatic loop.
    Inside,
    /// `U`: serial, since it is not in normal form or too large.
    NotNormal,
    /// `Y`: serial, since it synchronises or has a future.
    Synchronised,
    /// `C`: serial, since it calls or prints.
    Calling,
    /// `Q`: serial, since an address changes.
    Changing,
    /// `P`: parallel.
    Parallel,
    /// `n`: parallel by a trusted assertion on its pointers.
    Trusted,
    /// `R`: parallel, with reductions.
    Reducing,
    /// `L`: parallel, as a linear recurrence.
    Recurring,
    /// `D`: distributed over its parts.
    Distributed,
    /// `V`: serial, since a scalar is carried.
    Carried,
    /// `A`: serial, since two references may be aliases.
    Aliased,
    /// `S`: serial, since two references depend.
    Dependent,
}

/// Why two references do not depend in one direction. A number is that of a dimension.
#[derive(Clone, Copy)]
pub enum Why {
    /// Their roots are two named objects.
    Root,
    /// Their paths first differ in a member.
    Path,
    /// No variable is left, and the constant is not 0.
    Zero(u32),
    /// The greatest common divisor of the coefficients does not divide the constant.
    Gcd(u32),
    /// 0 is outside of the least and the greatest value.
    Banerjee(u32),
    /// The loop is asserted to have no dependence on their root.
    Nodep,
    /// One of their roots is asserted to have no alias.
    Noalias,
    /// They are the write and the read of a recurrence.
    Recur,
    /// Nothing excludes the direction.
    Open,
}

/// The operator of a reduction.
#[derive(Clone, Copy)]
pub enum Op {
    /// `+`
    Add,
    /// `*`
    Multiply,
    /// `&`
    And,
    /// `|`
    Or,
    /// `^`
    Xor,
    /// `min`: the least value.
    Min,
    /// `max`: the greatest value.
    Max,
}

/// What a parallel part does with an assigned scalar.
#[derive(Clone, Copy)]
pub enum Class {
    /// Each iteration has its own.
    Private,
    /// It is the recurrence of the part.
    Recur,
    /// The iterations' values are combined.
    Reduce(Op),
}

/// The references `a` and `b` with a reason for each direction: `low` where the index at `a` is below
/// that at `b`, `high` where it is above. In a loop that counts down, `high` is where the iteration of `a`
/// is the earlier one.
#[derive(Clone, Copy)]
pub struct PairCert {
    pub a: u32,
    pub b: u32,
    pub low: Why,
    pub high: Why,
}

/// A scalar of the function, by its number among the locals, and its class.
#[derive(Clone, Copy)]
pub struct ScalarCert {
    pub local: u32,
    pub class: Class,
}

/// The statements `first` to `end` - 1 of the loop's body.
#[derive(Drop)]
pub struct PartCert {
    pub first: u32,
    pub end: u32,
    pub letter: Letter,
    pub pairs: Items<PairCert>,
    pub scalars: Items<ScalarCert>,
}

/// The references `a` of a later part and `b` of an earlier one, with the reason for the direction in
/// which the iteration of `a` is the earlier one.
#[derive(Clone, Copy)]
pub struct CrossCert {
    pub a: u32,
    pub b: u32,
    pub why: Why,
}

/// The certificate of one loop.
#[derive(Drop)]
pub struct LoopCert {
    pub id: LoopId,
    pub letter: Letter,
    pub parts: Items<PartCert>,
    pub cross: Items<CrossCert>,
}

/// What is known of all pairs of references of a loop, in order.
#[derive(Drop)]
pub struct Answers {
    pub pairs: Items<PairCert>,
}

/// The certificates of a program.
#[derive(Drop)]
pub struct Certs {
    pub loops: Items<LoopCert>,
}
