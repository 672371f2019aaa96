//! Integer constants.

ghost use Rattle.std.specs.Prelude.{◌≡◌, ◌<◌, ◌^◌, ◌≤◌, IfSome, IfNone};
ghost use Rattle.xc_lex.specs.Numbers.{number_of, number_in, typed, suffixed, value_from, is_signed_suffix, is_unsigned_suffix};

use crate::bytes::{digit_value, digits_len, is_among};

/// The value of an integer constant, and whether its type is unsigned.
#[derive(Clone, Copy, Debug, PartialEq, Eq)]
pub struct Number {
    pub value: u64,
    pub unsigned: bool,
}

/// Suffixes of unsigned constants.
const UNSIGNED_SUFFIXES: [&[u8]; 18] = [
    b"u", b"U", b"ul", b"uL", b"ull", b"uLL", b"Ul", b"UL", b"Ull", b"ULL", b"lu", b"lU", b"llu",
    b"llU", b"Lu", b"LU", b"LLu", b"LLU",
];

/// Suffixes of the others.
const SIGNED_SUFFIXES: [&[u8]; 5] = [b"", b"l", b"L", b"ll", b"LL"];

#[tactic(auto, unfolding(crate::specs::Numbers::is_unsigned_suffix))]
fn is_unsigned_suffix(word: &[u8]) -> bool
    ensures { result ≡ is_unsigned_suffix word.now }
{
    is_among(&UNSIGNED_SUFFIXES, word)
}

#[tactic(auto, unfolding(crate::specs::Numbers::is_signed_suffix))]
fn is_signed_suffix(word: &[u8]) -> bool
    ensures { result ≡ is_signed_suffix word.now }
{
    is_among(&SIGNED_SUFFIXES, word)
}

/// The value of some digits, where it is below 2^64.
fn digits_value(base: u64, digits: &[u8]) -> Option<u64>
    requires { 1 ≤ base }
    ensures some { IfSome result (λ value. value ≡ value_from base 0 digits.now) }
    ensures none { IfNone result (2 ^ 64 ≤ value_from base 0 digits.now) }
{
    let mut value = 0u64;
    for b in digits {
        value = value.checked_mul(base)?.checked_add(digit_value(*b))?;
    }
    Some(value)
}

/// The constant of a value, given whether its suffix says that it is unsigned.
fn typed(base: u64, value: u64, marked: bool) -> Option<Number>
    ensures { result ≡ typed base value marked }
{
    let big = value > i64::MAX as u64;
    if big && base == 10 && !marked {
        None
    } else {
        Some(Number {
            value,
            unsigned: marked || big,
        })
    }
}

/// Some digits and a suffix.
fn number_in(base: u64, run: &[u8]) -> Option<Number>
    requires { 1 ≤ base }
    ensures { result ≡ number_in base run.now }
{
    let n = digits_len(base, run);
    if n == 0 {
        return None;
    }
    let value = digits_value(base, &run[..n])?;
    let suffix = &run[n..];
    if is_signed_suffix(suffix) {
        typed(base, value, false)
    } else if is_unsigned_suffix(suffix) {
        typed(base, value, true)
    } else {
        None
    }
}

/// The integer constant that the bytes spell, if they do.
pub fn read_number(run: &[u8]) -> Option<Number>
    ensures { result ≡ number_of run.now }
{
    match run {
        [b'0', b'x' | b'X', digits @ ..] => number_in(16, digits),
        [b'0', _, ..] => number_in(8, run),
        _ => number_in(10, run),
    }
}
