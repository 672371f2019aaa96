//! Why a source has no code.

ghost use Rattle.std.specs.Prelude.{◌≡◌};
ghost use Rattle.xc_driver.specs.declared.fault.CompileFault.TheVariants.{NoMemory};

use std::alloc::AllocError;
use thiserror::Error;
use xc_text_place::Pos;

/// The kinds of refusals, in the order in which they are asked.
#[derive(Clone, Copy, Debug, PartialEq, Eq)]
pub enum RefusalKind {
    /// The text has no tokens.
    Lex,
    /// The tokens have no tree.
    Syntax,
    /// A node is too deep.
    Depth,
    /// A rule of names is broken.
    Name,
    /// A rule of types is broken.
    Typing,
    /// A loop, a global or an argument of `printf` is one too many.
    Count,
    /// The program is well typed, and has a form that is not translated yet.
    Unbuilt,
}

/// A refusal with its place.
#[derive(Clone, Copy, Debug)]
pub struct Refusal {
    pub kind: RefusalKind,
    pub at: Pos,
}

/// Why a source has no code.
#[derive(Clone, Copy, Debug, Error)]
pub enum CompileFault {
    #[error("no memory")]
    NoMemory,
    #[error("refused at line {line}, column {col}", line = .0.at.line, col = .0.at.col)]
    Refused(Refusal),
}

impl From<AllocError> for CompileFault {
    ghost from_gives = { λ _ e. e ≡ NoMemory };

    fn from(_: AllocError) -> CompileFault {
        CompileFault::NoMemory
    }
}
