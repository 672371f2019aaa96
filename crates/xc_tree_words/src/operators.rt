//! The values of operators on 64-bit words.

ghost use Rattle.std.specs.Prelude.{◌≡◌, cond};
ghost use Rattle.xc_tree_words.specs.Words.{is_uint, works_on_uint, is_below, quotient_word, remainder_word, shifted_word, binary_word, unary_word};
ghost use Rattle.xc_word.specs.Numbers.{truth};

use xc_tree::{BinOp, Ty, UnOp};

/// Whether words of this type are without a sign.
pub fn is_uint(ty: &Ty) -> bool
    ensures { result ≡ is_uint ty.now }
{
    match ty {
        Ty::Uint => true,
        _ => false,
    }
}

/// Whether a binary operator on operands of these types works on words without a sign.
pub fn works_on_uint(op: BinOp, a: &Ty, b: &Ty) -> bool
    ensures { result ≡ works_on_uint op a.now b.now }
{
    match op {
        BinOp::Shl | BinOp::Shr => is_uint(a),
        _ => is_uint(a) || is_uint(b),
    }
}

fn truth(holds: bool) -> u64
    ensures { result ≡ truth holds }
{
    if holds { 1 } else { 0 }
}

fn is_below(unsigned: bool, a: u64, b: u64) -> bool
    ensures { result ≡ is_below unsigned a b }
{
    if unsigned {
        a < b
    } else {
        a.cast_signed() < b.cast_signed()
    }
}

fn quotient(unsigned: bool, a: u64, b: u64) -> Option<u64>
    ensures { result ≡ quotient_word unsigned a b }
{
    if b == 0 {
        None
    } else if unsigned {
        Some(a / b)
    } else {
        Some(
            a.cast_signed()
                .wrapping_div(b.cast_signed())
                .cast_unsigned(),
        )
    }
}

fn remainder(unsigned: bool, a: u64, b: u64) -> Option<u64>
    ensures { result ≡ remainder_word unsigned a b }
{
    if b == 0 {
        None
    } else if unsigned {
        Some(a % b)
    } else {
        Some(
            a.cast_signed()
                .wrapping_rem(b.cast_signed())
                .cast_unsigned(),
        )
    }
}

fn shifted(unsigned: bool, a: u64, b: u64) -> u64
    ensures { result ≡ shifted_word unsigned a b }
{
    let count = (b % 64) as u32;
    if unsigned {
        a >> count
    } else {
        (a.cast_signed() >> count).cast_unsigned()
    }
}

/// The value of a binary operator on two words, both of type Uint or both of type Int. A shift goes by the type of the
/// left word. It is none for a division by 0.
pub fn binary(op: BinOp, unsigned: bool, a: u64, b: u64) -> Option<u64>
    ensures { result ≡ binary_word op unsigned a b }
{
    match op {
        BinOp::Mul => Some(a.wrapping_mul(b)),
        BinOp::Div => quotient(unsigned, a, b),
        BinOp::Rem => remainder(unsigned, a, b),
        BinOp::Add => Some(a.wrapping_add(b)),
        BinOp::Sub => Some(a.wrapping_sub(b)),
        BinOp::Shl => Some(a << ((b % 64) as u32)),
        BinOp::Shr => Some(shifted(unsigned, a, b)),
        BinOp::Lt => Some(truth(is_below(unsigned, a, b))),
        BinOp::Gt => Some(truth(is_below(unsigned, b, a))),
        BinOp::Le => Some(truth(!is_below(unsigned, b, a))),
        BinOp::Ge => Some(truth(!is_below(unsigned, a, b))),
        BinOp::Eq => Some(truth(a == b)),
        BinOp::Ne => Some(truth(a != b)),
        BinOp::BitAnd => Some(a & b),
        BinOp::BitXor => Some(a ^ b),
        BinOp::BitOr => Some(a | b),
    }
}

/// The value of a unary operator on a word. A cast keeps the word.
pub fn unary(op: UnOp, a: u64) -> u64
    ensures { result ≡ unary_word op a }
{
    match op {
        UnOp::Neg => 0u64.wrapping_sub(a),
        UnOp::Complement => !a,
        UnOp::Not => truth(a == 0),
        UnOp::Cast => a,
    }
}
