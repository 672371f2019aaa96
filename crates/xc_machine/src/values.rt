//! What instructions make of words.

ghost use Rattle.std.specs.Prelude.{◌≡◌, ◌<◌, ◌^◌};
ghost use Rattle.xc_isa.specs.Words.{binary, divide as divide_of, moved as moved_of, distance as distance_of, holds as holds_of, offset_of};
ghost use Rattle.xc_machine.specs.Places.{place_of};

use xc_isa::{BinaryOp, DivideOp, Test};
use xc_word::Place;

/// What a pointer grows by from one segment to the next.
pub(crate) const SEGMENT_SPAN: u64 = 1 << 32;

/// The offset that a pointer has in its segment.
fn offset(pointer: u64) -> u64
    ensures value { result ≡ offset_of pointer }
    ensures small { result < 2 ^ 32 }
{
    pointer & 0xffff_ffff
}

/// The place at an offset from where a pointer points.
pub(crate) fn place(pointer: u64, off: u32) -> Option<Place>
    ensures { result ≡ place_of pointer off }
{
    let seg = (pointer >> 32) as u32;
    match u32::try_from(offset(pointer) + u64::from(off)) {
        Ok(off) => Some(Place { seg, off }),
        Err(_) => None,
    }
}

/// What an operation makes of two words.
pub(crate) fn operate(op: BinaryOp, a: u64, b: u64) -> u64
    ensures { result ≡ binary op a b }
{
    match op {
        BinaryOp::Add => a.wrapping_add(b),
        BinaryOp::Sub => a.wrapping_sub(b),
        BinaryOp::Mul => a.wrapping_mul(b),
        BinaryOp::And => a & b,
        BinaryOp::Or => a | b,
        BinaryOp::Xor => a ^ b,
        BinaryOp::Shl => a.wrapping_shl((b % 64) as u32),
        BinaryOp::Shr => a >> (b % 64),
        BinaryOp::Sar => (a.cast_signed() >> (b % 64)).cast_unsigned(),
        BinaryOp::Slt => u64::from(a.cast_signed() < b.cast_signed()),
        BinaryOp::Sltu => u64::from(a < b),
        BinaryOp::Seq => u64::from(a == b),
    }
}

/// What a division makes of two words. None: the divisor is 0.
pub(crate) fn divide(op: DivideOp, a: u64, b: u64) -> Option<u64>
    ensures { result ≡ divide_of op a b }
{
    if b == 0 {
        return None;
    }
    Some(match op {
        DivideOp::Div => a
            .cast_signed()
            .wrapping_div(b.cast_signed())
            .cast_unsigned(),
        DivideOp::Divu => a / b,
        DivideOp::Rem => a
            .cast_signed()
            .wrapping_rem(b.cast_signed())
            .cast_unsigned(),
        DivideOp::Remu => a % b,
    })
}

/// A pointer moved on by a signed number of so many cells each. None: the offset leaves the segment's range.
pub(crate) fn moved(pointer: u64, by: u64, cells: u32) -> Option<u64>
    ensures { result ≡ moved_of pointer by cells }
{
    let way = by.cast_signed().checked_mul(i64::from(cells))?;
    let off = (offset(pointer) as i64).checked_add(way)?;
    let off = u32::try_from(off).ok()?;
    Some((pointer >> 32) * SEGMENT_SPAN + u64::from(off))
}

/// How far one pointer is behind another, signed. None: they point to different segments.
pub(crate) fn distance(to: u64, from: u64) -> Option<u64>
    ensures { result ≡ distance_of to from }
{
    if to >> 32 == from >> 32 {
        let way = offset(to) as i64 - offset(from) as i64;
        Some(way.cast_unsigned())
    } else {
        None
    }
}

/// Whether a word makes a branch.
pub(crate) fn holds(test: Test, word: u64) -> bool
    ensures { result ≡ holds_of test word }
{
    match test {
        Test::Zero => word == 0,
        Test::NotZero => word != 0,
    }
}
