//! Binary operators, by what they do.

ghost use Rattle.std.specs.Prelude.{◌≡◌};
ghost use Rattle.xc_meaning_terms.specs.Pointers.{operate as operated};

use crate::pointers::{back, cells_between, forth, ordered};
use xc_tree::BinOp;
use xc_tree_words::binary;

/// What a binary operator does, by the types of its operands (C99 6.5.5 to 6.5.12). Sizes count cells; `unsigned` is of the number.
#[derive(Drop, Clone, Copy)]
pub enum Operation {
    /// On words: numbers, or two pointers under `==` and `!=`.
    OnWords { op: BinOp, unsigned: bool },
    /// Pointer plus number.
    PointerPlus { unsigned: bool, size: u32 },
    /// Number plus pointer.
    PlusPointer { unsigned: bool, size: u32 },
    /// Pointer minus number.
    PointerMinus { unsigned: bool, size: u32 },
    /// `<`, `<=`, `>` and `>=` of two pointers.
    Order(BinOp),
    /// The difference of two pointers, in elements.
    Distance(u32),
}

/// The value of an operation on two words. None: it traps.
pub fn operate(operation: Operation, a: u64, b: u64) -> Option<u64>
    ensures { result ≡ operated operation a b }
{
    match operation {
        Operation::OnWords { op, unsigned } => binary(op, unsigned, a, b),
        Operation::PointerPlus { unsigned, size } => forth(unsigned, size, a, b),
        Operation::PlusPointer { unsigned, size } => forth(unsigned, size, b, a),
        Operation::PointerMinus { unsigned, size } => back(unsigned, size, a, b),
        Operation::Order(op) => ordered(op, a, b),
        Operation::Distance(size) => {
            let cells = cells_between(a, b)?;
            binary(BinOp::Div, false, cells, u64::from(size))
        }
    }
}
