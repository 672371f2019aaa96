//! Registers, numbers and states as words.

ghost use Rattle.std.specs.Prelude.{◌≡◌, ◌++◌, ◌<◌, OnOk, ℕ, if◌then◌else◌};
ghost use Rattle.std.specs.Option.{option_map};
ghost use Rattle.xc_isa_text.specs.Operands.{Slot, limit_of, word_in};
ghost use Rattle.xc_isa_text.specs.InnerOperands.{number_in};

use std::alloc::AllocError;
use xc_isa::Reg;
use xc_text_lines::{number, number_below, push_number, push_signed, signed_number};

/// What stands at a place of a line.
pub(crate) trait Operand: Copy {
    /// The kind of place.
    ghost slot: { Slot };

    /// The number that stands there.
    ghost number: { Self → ℕ };

    /// What a word spells.
    fn read(word: &[u8]) -> Option<Self>
        ensures { option_map number result ≡ number_in slot word.now };

    /// Writes the word at the end.
    fn push(self, out: &mut Vec<u8>) -> Result<(), AllocError>
        ensures ok { OnOk result (out.new.items ≡ out.old.items ++ word_in slot (number self)) }
        ensures below { OnOk result (number self < limit_of slot) };
}

impl Operand for Reg {
    ghost use Rattle.xc_isa_text.specs.Operands.{Register};

    ghost slot = { Register };

    ghost number = { λ r. r };

    fn read(word: &[u8]) -> Option<Reg> {
        let n = number_below(word, 32)?;
        Some(Reg::new(n as u8))
    }

    fn push(self, out: &mut Vec<u8>) -> Result<(), AllocError> {
        push_number(out, u64::from(self.number()))
    }
}

impl Operand for u32 {
    ghost use Rattle.xc_isa_text.specs.Operands.{Number};

    ghost slot = { Number };

    ghost number = { λ n. n };

    fn read(word: &[u8]) -> Option<u32> {
        let n = number_below(word, 1 << 32)?;
        Some(n as u32)
    }

    fn push(self, out: &mut Vec<u8>) -> Result<(), AllocError> {
        push_number(out, u64::from(self))
    }
}

impl Operand for u64 {
    ghost use Rattle.xc_isa_text.specs.Operands.{Value};

    ghost slot = { Value };

    ghost number = { λ n. n };

    fn read(word: &[u8]) -> Option<u64> {
        number(word)
    }

    fn push(self, out: &mut Vec<u8>) -> Result<(), AllocError> {
        push_number(out, self)
    }
}

/// A word that is written as a signed number.
#[derive(Clone, Copy)]
pub(crate) struct Signed(pub(crate) u64);

impl Operand for Signed {
    ghost use Rattle.xc_isa_text.specs.Operands.{Signed as SignedSlot};

    ghost slot = { SignedSlot };

    ghost number = { λ n. n.0 };

    fn read(word: &[u8]) -> Option<Signed> {
        let n = signed_number(word)?;
        Some(Signed(n.cast_unsigned()))
    }

    fn push(self, out: &mut Vec<u8>) -> Result<(), AllocError> {
        push_signed(out, self.0.cast_signed())
    }
}

/// Whether a cell is full.
#[derive(Clone, Copy)]
pub(crate) struct Full(pub(crate) bool);

impl Operand for Full {
    ghost use Rattle.xc_isa_text.specs.Operands.{State};

    ghost slot = { State };

    ghost number = { λ f. if f.0 then 1 else 0 };

    fn read(word: &[u8]) -> Option<Full> {
        if word == b"full".as_slice() {
            Some(Full(true))
        } else if word == b"empty".as_slice() {
            Some(Full(false))
        } else {
            None
        }
    }

    fn push(self, out: &mut Vec<u8>) -> Result<(), AllocError> {
        if self.0 {
            out.extend_from_slice(b"full")
        } else {
            out.extend_from_slice(b"empty")
        }
    }
}
