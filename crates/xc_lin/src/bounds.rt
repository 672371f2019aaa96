//! The least and the greatest difference of two affine forms.
ghost use Rattle.std.specs.Prelude.{◌≡◌, ◌≤◌, ◌+◌, ◌*◌, ◌^◌, ◌+ℤ◌, ◌-ℤ◌, ◌*ℤ◌, ◌≤ℤ◌, ◌<ℤ◌, ℤ, pos, neg_ℤ, unsigned_abs, IsTrue, ◌↔◌};
ghost use Rattle.std.specs.Int.{int_min, int_max};
ghost use Rattle.xc_lin.specs.Affine.{coefficient_of};
ghost use Rattle.xc_lin.specs.Region.{range_of, tie_of, HasValues, HasValuesAt, HasPoints, Bounds};
ghost use Rattle.xc_lin.specs.InnerRegion.{shorter, height, Reaches, AreSmall, IsSmall, AreWithin, Spans};
ghost use Rattle.xc_lin.specs.declared.region.Tie.TheVariants.{Below};

use crate::affine::{Affine, Var};
use crate::region::{Range, Region, Tie};

/// The least and the greatest of some values.
#[derive(Clone, Copy)]
struct Extent {
    least: i128,
    most: i128,
}

impl Extent {
    /// Of the sums of two values, each from one of the two.
    fn plus(self, other: Extent) -> Extent
        requires first { AreWithin (2 ^ 100) self }
        requires second { AreWithin (2 ^ 100) other }
        ensures { result ≡ record { least = self.least +ℤ other.least; most = self.most +ℤ other.most } }
    {
        Extent {
            least: self.least + other.least,
            most: self.most + other.most,
        }
    }

    /// Of the values of both.
    fn around(self, other: Extent) -> Extent
        ensures { result ≡ record { least = int_min self.least other.least; most = int_max self.most other.most } }
    {
        Extent {
            least: self.least.min(other.least),
            most: self.most.max(other.most),
        }
    }
}

/// A linear function of one value that lies in a range.
#[derive(Clone, Copy)]
struct Line {
    coeff: i64,
    shift: i128,
    range: Range,
}

impl Line {
    /// What it rises by up to the start of the range.
    fn rise_to_first(self) -> i128
        requires { unsigned_abs self.coeff ≤ 2 ^ 21 }
        ensures value { result ≡ self.coeff *ℤ self.range.lo }
        ensures size { unsigned_abs result ≤ 2 ^ 84 }
    {
        self.coeff as i128 * self.range.lo as i128
    }

    /// What it rises by up to the end of the range.
    fn rise_to_last(self) -> i128
        requires { unsigned_abs self.coeff ≤ 2 ^ 21 }
        ensures value { result ≡ self.coeff *ℤ self.range.hi }
        ensures size { unsigned_abs result ≤ 2 ^ 84 }
    {
        self.coeff as i128 * self.range.hi as i128
    }

    /// Its value at the start of the range.
    fn first(self) -> i128
        requires { IsSmall self }
        ensures value { result ≡ height self self.range.lo }
        ensures size { unsigned_abs result ≤ 2 ^ 85 }
    {
        self.rise_to_first() + self.shift
    }

    /// Its value at the end of the range.
    fn last(self) -> i128
        requires { IsSmall self }
        ensures value { result ≡ height self self.range.hi }
        ensures size { unsigned_abs result ≤ 2 ^ 85 }
    {
        self.rise_to_last() + self.shift
    }

    /// Its least and its greatest value.
    fn extent(self) -> Extent
        requires some { self.range.lo ≤ℤ self.range.hi }
        requires small { IsSmall self }
        ensures reaches { Reaches self result.least result.most }
        ensures size { AreWithin (2 ^ 85) result }
    {
        let (first, last) = (self.first(), self.last());
        if self.coeff < 0 {
            Extent {
                least: last,
                most: first,
            }
        } else {
            Extent {
                least: first,
                most: last,
            }
        }
    }
}

/// What a variable is multiplied with in two forms.
#[derive(Clone, Copy)]
struct Slopes {
    first: i64,
    second: i64,
}

impl Slopes {
    /// What the variable adds by the first form.
    fn of_first(self, range: Range) -> Line
        ensures { result ≡ record { coeff = self.first; shift = pos 0; range = range } }
    {
        Line {
            coeff: self.first,
            shift: 0,
            range,
        }
    }

    /// What it takes by the second form.
    fn of_second(self, range: Range) -> Line
        requires { AreSmall self }
        ensures { result ≡ record { coeff = neg_ℤ self.second; shift = pos 0; range = range } }
    {
        Line {
            coeff: -self.second,
            shift: 0,
            range,
        }
    }

    /// What it adds with one value in both forms.
    fn of_both(self, range: Range) -> Line
        requires { AreSmall self }
        ensures { result ≡ record { coeff = self.first -ℤ self.second; shift = pos 0; range = range } }
    {
        Line {
            coeff: self.first - self.second,
            shift: 0,
            range,
        }
    }

    /// What it adds where its value in the second form is the next one.
    fn of_next(self, range: Range) -> Line
        requires small { AreSmall self }
        requires pair { range.lo <ℤ range.hi }
        ensures { result ≡ record { coeff = self.first -ℤ self.second; shift = neg_ℤ self.second; range = shorter range } }
    {
        Line {
            coeff: self.first - self.second,
            shift: -(self.second as i128),
            range: range.shorter(),
        }
    }

    /// What it adds where its value in the second form is the last one.
    fn of_last(self, range: Range) -> Line
        requires small { AreSmall self }
        requires pair { range.lo <ℤ range.hi }
        ensures line { result ≡ record { coeff = self.first; shift = neg_ℤ (self.second *ℤ range.hi); range = shorter range } }
        ensures size { unsigned_abs result.shift ≤ 2 ^ 84 }
    {
        let fall = Line {
            coeff: self.second,
            shift: 0,
            range,
        };
        Line {
            coeff: self.first,
            shift: -fall.rise_to_last(),
            range: range.shorter(),
        }
    }

    /// The forms the other way round.
    fn turned(self) -> Slopes
        requires { AreSmall self }
        ensures { result ≡ record { first = neg_ℤ self.second; second = neg_ℤ self.first } }
    {
        Slopes {
            first: -self.second,
            second: -self.first,
        }
    }

    /// The least and the greatest of what the variable adds where its first value is below the second:
    /// a linear function of the triangle of such pairs is so at one of its corners.
    fn below(self, range: Range) -> Extent
        requires small { AreSmall self }
        requires pair { range.lo <ℤ range.hi }
        ensures spans { Spans Below range self.first self.second result.least result.most }
        ensures size { AreWithin (2 ^ 85) result }
    {
        let next = self.of_next(range).extent();
        next.around(self.of_last(range).extent())
    }

    /// The least and the greatest of what the variable adds to the difference.
    fn extent(self, tie: Tie, range: Range) -> Extent
        requires small { AreSmall self }
        requires values { HasValues tie range }
        ensures spans { Spans tie range self.first self.second result.least result.most }
        ensures size { AreWithin (2 ^ 86) result }
    {
        match tie {
            Tie::Apart => {
                let first = self.of_first(range).extent();
                first.plus(self.of_second(range).extent())
            }
            Tie::Shared => self.of_both(range).extent(),
            Tie::Below => self.below(range),
            Tie::Above => self.turned().below(range),
        }
    }
}

/// The least and the greatest of what a variable adds to the difference of two forms.
fn part(a: &Affine, b: &Affine, over: &Region, var: Var) -> Extent
    requires { HasValuesAt over.now var }
    ensures spans { Spans (tie_of over.now var) (range_of over.now.ranges var) (coefficient_of a.now.terms var) (coefficient_of b.now.terms var) result.least result.most }
    ensures size { AreWithin (2 ^ 86) result }
{
    let slopes = Slopes {
        first: a.coefficient(var),
        second: b.coefficient(var),
    };
    slopes.extent(over.tie(var), over.range(var))
}

/// The difference of the constants of two forms.
fn constant(a: &Affine, b: &Affine) -> Extent
    ensures value { result ≡ record { least = a.now.constant -ℤ b.now.constant; most = a.now.constant -ℤ b.now.constant } }
    ensures size { AreWithin (2 ^ 86) result }
{
    let constant = a.constant() as i128 - b.constant() as i128;
    Extent {
        least: constant,
        most: constant,
    }
}

/// Whether the region has a point for two forms: the range of no variable of theirs is empty, and the
/// own index has a pair in the named direction. It takes no memory.
pub fn has_points(a: &Affine, b: &Affine, over: &Region) -> bool
    ensures { IsTrue result ↔ HasPoints a.now b.now over.now }
{
    let terms = a.met(b, Var::Index(over.own));
    for term in terms.as_slice() {
        if !over.has_values(term.var) {
            return false;
        }
    }
    true
}

/// The least and the greatest difference `a` - `b` over the region: the own index takes pairs in the
/// named direction, other indices are apart, and symbols are shared. It takes no memory.
pub fn extremes(a: &Affine, b: &Affine, over: &Region) -> (i128, i128)
    requires { HasPoints a.now b.now over.now }
    ensures { Bounds a.now b.now over.now result.0 result.1 }
{
    let mut extent = constant(a, b);
    let terms = a.met(b, Var::Index(over.own));
    for term in terms.as_slice() {
        extent = extent.plus(part(a, b, over, term.var));
    }
    (extent.least, extent.most)
}
