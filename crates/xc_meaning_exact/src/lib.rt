//! What the meaning computes on words is what it is in exact numbers. The crate has laws alone.
#![tactic(auto)]

ghost use Rattle.xc_meaning_exact.specs.Exact.{IndexAfterIsExact, IndexValuesAreExact, PointerSumsAreExact};

/// Sums of pointers and numbers are exact, and the values of an index are those that its step reaches and for which its test holds.
pub fn exact()
    ensures pointers { PointerSumsAreExact }
    ensures values { IndexValuesAreExact }
    ensures steps { IndexAfterIsExact }
{}
