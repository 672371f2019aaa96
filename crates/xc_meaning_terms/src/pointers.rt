//! What operators make of pointers.

ghost use Rattle.std.specs.Prelude.{◌≡◌, ◌<◌, ◌^◌, true};
ghost use Rattle.xc_meaning_terms.specs.Pointers.{offset_of, moved as moved_by, is_too_large as too_large, forth as forth_of, back as back_of, member_of, cells_between as between, in_one, element as element_of};
ghost use Rattle.xc_tree_words.specs.Words.{binary_word};

use xc_tree::BinOp;
use xc_tree_words::binary;

/// What a pointer grows by from one segment to the next.
const SEGMENT_SPAN: u64 = 1 << 32;

/// The offset that a pointer has in its segment.
fn offset(pointer: u64) -> u64
    ensures value { result ≡ offset_of pointer }
    ensures small { result < 2 ^ 32 }
{
    pointer & 0xffff_ffff
}

/// A pointer moved by a signed number of elements. None: the offset leaves the range of offsets.
fn moved(size: u32, pointer: u64, by: u64) -> Option<u64>
    ensures { result ≡ moved_by size pointer by }
{
    let way = by.cast_signed().checked_mul(i64::from(size))?;
    let off = (offset(pointer) as i64).checked_add(way)?;
    let off = u32::try_from(off).ok()?;
    Some((pointer >> 32) * SEGMENT_SPAN + u64::from(off))
}

/// Whether a number without a sign is 2^63 or more.
fn is_too_large(unsigned: bool, by: u64) -> bool
    ensures { result ≡ too_large unsigned by }
{
    unsigned && by.cast_signed() < 0
}

/// A pointer moved forth by so many elements. None: the offset leaves the range of offsets.
pub fn forth(unsigned: bool, size: u32, pointer: u64, by: u64) -> Option<u64>
    ensures { result ≡ forth_of unsigned size pointer by }
{
    if is_too_large(unsigned, by) {
        None
    } else {
        moved(size, pointer, by)
    }
}

/// A pointer moved back by so many elements. None: the offset leaves the range of offsets.
pub fn back(unsigned: bool, size: u32, pointer: u64, by: u64) -> Option<u64>
    ensures { result ≡ back_of unsigned size pointer by }
{
    if is_too_large(unsigned, by) {
        None
    } else {
        moved(size, pointer, 0u64.wrapping_sub(by))
    }
}

/// The place of an element by a pointer, or in an array with a bound. None: the index is not below the bound, or the offset leaves the
/// range of offsets.
pub fn element(
    bound: Option<u32>,
    unsigned: bool,
    size: u32,
    pointer: u64,
    index: u64,
) -> Option<u64>
    ensures { result ≡ element_of bound unsigned size pointer index }
{
    match bound {
        None => forth(unsigned, size, pointer, index),
        Some(bound) => {
            if index < u64::from(bound) {
                forth(unsigned, size, pointer, index)
            } else {
                None
            }
        }
    }
}

/// The place of a member, so many cells behind the place of its struct. None: the offset leaves the range of offsets.
pub fn member(pointer: u64, off: u32) -> Option<u64>
    ensures { result ≡ member_of pointer off }
{
    let off = u32::try_from(offset(pointer) + u64::from(off)).ok()?;
    Some((pointer >> 32) * SEGMENT_SPAN + u64::from(off))
}

/// How many cells one pointer is behind another, signed. None: they point to different segments.
pub fn cells_between(to: u64, from: u64) -> Option<u64>
    ensures { result ≡ between to from }
{
    if to >> 32 == from >> 32 {
        let cells = offset(to) as i64 - offset(from) as i64;
        Some(cells.cast_unsigned())
    } else {
        None
    }
}

/// A comparison of two pointers by their offsets. None: they point to different segments.
pub fn ordered(op: BinOp, a: u64, b: u64) -> Option<u64>
    ensures { result ≡ in_one a b (binary_word op true) }
{
    if a >> 32 == b >> 32 {
        binary(op, true, offset(a), offset(b))
    } else {
        None
    }
}
