//! What keeps a loop from being stable.

use xc_text_place::Span;

/// A rule of stable loops.
#[derive(Clone, Copy, PartialEq, Eq)]
pub enum Rule {
    /// It has no tagged access, generic function, `future` statement or Concurrent loop.
    Sync,
    /// It prints nothing, calls pure functions alone, and declares no object that has an address; each loop inside it is in
    /// normal form, and passes no end of Int.
    Call,
    /// Each address and each bound of a loop inside it changes with the indices alone.
    Address,
}

/// A place where a rule is broken: an access or a call, a declaration, a whole loop, or a bound.
#[derive(Clone, Copy, PartialEq, Eq)]
pub struct Breach {
    pub rule: Rule,
    pub at: Span,
}
