//! Where the variables of two references range.
ghost use Rattle.std.specs.Prelude.{◌≡◌, ◌<ℤ◌, ◌↔◌, IsTrue};

use crate::LoopId;
use crate::affine::Var;
use sqlite_items::Items;

/// The values from `lo` to `hi`.
#[derive(Clone, Copy)]
pub struct Range {
    pub lo: i64,
    pub hi: i64,
}

impl Range {
    ghost use Rattle.xc_lin.specs.InnerRegion.{shorter};

    /// The numbers from -2^31 to 2^31: the range of a variable of which nothing else is known.
    pub const ANYWHERE: Range = Range {
        lo: -(1 << 31),
        hi: 1 << 31,
    };

    /// The range without its last value.
    pub(crate) fn shorter(self) -> Range
        requires { self.lo <ℤ self.hi }
        ensures { result ≡ shorter self }
    {
        Range {
            lo: self.lo,
            hi: self.hi - 1,
        }
    }
}

/// Where the variables of two references range, and in which direction: `low` where the own index at the
/// first is below that at the second, whichever iteration is the earlier one. `own` is the loop whose
/// iterations are meant.
#[derive(Drop)]
pub struct Region {
    pub ranges: Items<(Var, Range)>,
    pub low: bool,
    pub own: LoopId,
}

/// How the values of a variable at two references are bound to each other.
#[derive(Clone, Copy)]
pub enum Tie {
    /// Not at all.
    Apart,
    /// They are one value.
    Shared,
    /// The first is below the second.
    Below,
    /// The first is above the second.
    Above,
}

impl Region {
    ghost use Rattle.xc_lin.specs.Region.{range_of, tie_of, HasValuesAt};

    /// The range of a variable: [`Range::ANYWHERE`] where none is given for it.
    pub fn range(&self, var: Var) -> Range
        ensures { result ≡ range_of self.now.ranges var }
    {
        for known in self.ranges.as_slice() {
            if known.0 == var {
                return known.1;
            }
        }
        Range::ANYWHERE
    }

    /// How the values of a variable are bound.
    pub fn tie(&self, var: Var) -> Tie
        ensures { result ≡ tie_of self.now var }
    {
        match var {
            Var::Index(id) if id != self.own => Tie::Apart,
            Var::Index(_) if self.low => Tie::Below,
            Var::Index(_) => Tie::Above,
            Var::Symbol(_) | Var::GlobalSymbol(_) => Tie::Shared,
        }
    }

    /// Whether a variable has values that are bound so.
    pub fn has_values(&self, var: Var) -> bool
        ensures { IsTrue result ↔ HasValuesAt self.now var }
    {
        let range = self.range(var);
        match self.tie(var) {
            Tie::Apart | Tie::Shared => range.lo <= range.hi,
            Tie::Below | Tie::Above => range.lo < range.hi,
        }
    }
}
