//! Why a text has no typed tree.

ghost use Rattle.std.specs.Prelude.{◌≡◌, ◌<◌, ◌+◌, ◌^◌, length};
ghost use Rattle.xc_type.specs.Checked.{IsPlaced};
ghost use Rattle.xc_type.specs.declared.fault.CheckFault.TheVariants.{NoMemory};

use std::alloc::{AllocError, AllocFailed};
use thiserror::Error;
use xc_text_place::{Pos, position};
use xc_type_rule::{Breach, Fault};

/// Why a text has no typed tree: want of memory, or what it breaks first.
#[derive(Clone, Copy, Debug, Error)]
pub enum CheckFault {
    #[error("no memory")]
    NoMemory,
    /// A name that is not declared, or that is declared a second time.
    #[error("a name at line {line}, column {col}", line = .0.line, col = .0.col)]
    Name(Pos),
    /// A rule of types.
    #[error("a type at line {line}, column {col}", line = .0.line, col = .0.col)]
    Typing(Pos),
    /// The first loop, global or argument of `printf` that is one too many, of a text without other faults.
    #[error("one too many at line {line}, column {col}", line = .0.line, col = .0.col)]
    Count(Pos),
}

impl From<AllocError> for CheckFault {
    ghost from_gives = { λ _ e. e ≡ NoMemory };

    fn from(_: AllocError) -> CheckFault {
        CheckFault::NoMemory
    }
}

impl<T: Drop> From<AllocFailed<T>> for CheckFault {
    ghost from_gives = { λ _ e. e ≡ NoMemory };

    fn from(_: AllocFailed<T>) -> CheckFault {
        CheckFault::NoMemory
    }
}

/// The fault with its line and column.
pub(crate) fn placed(source: &[u8], fault: Fault) -> CheckFault
    requires { length source.now + 1 < 2 ^ 32 }
    ensures { IsPlaced source.now fault result }
{
    let pos = position(source, fault.at as usize);
    match fault.breach {
        Breach::Name => CheckFault::Name(pos),
        Breach::Typing => CheckFault::Typing(pos),
    }
}
