//! What a pragma says.

ghost use Rattle.std.specs.Prelude.{◌≡◌, ◌<◌, ◌≤◌, ◌^◌, length};
ghost use Rattle.xc_text_lines.specs.Numbers.{number_of};
ghost use Rattle.xc_type_pragmas.specs.Words.{words_from};
ghost use Rattle.xc_type_pragmas.specs.Said.{text_of, streams_of, by_two, by_three, by_words, by_line, pragma_of};

use crate::words::{Cursor, Mode, next_word};
use xc_text_lines::number_below;
use xc_text_place::Span;
use xc_tree::Schedule;

/// What a pragma says, with the place of a name in the source.
#[derive(Clone, Copy, PartialEq, Eq)]
pub enum Pragma {
    /// `assert parallel`
    Parallel,
    /// `assert nodep NAME`
    Nodep(Span),
    /// `assert noalias NAME`
    Noalias(Span),
    /// `loop serial`
    Serial,
    /// `use K streams`, K from 1 to 8,192
    Streams(u32),
    /// `block schedule` and the like
    Dealt(Schedule),
    /// Another text, which has no effect.
    Other,
}

// The streams that a word asks for: a decimal number with no zero in front.
fn streams_of(word: &[u8]) -> Pragma
    ensures { result ≡ streams_of (number_of 8193 word.now) }
{
    match number_below(word, 8193) {
        None => Pragma::Other,
        Some(k) => {
            if k == 0 {
                Pragma::Other
            } else {
                Pragma::Streams(k as u32)
            }
        }
    }
}

#[tactic(auto, unfolding(crate::specs::Said::by_two))]
fn by_two(a: &[u8], b: &[u8]) -> Pragma
    ensures { result ≡ by_two a.now b.now }
{
    if a == b"assert".as_slice() && b == b"parallel".as_slice() {
        Pragma::Parallel
    } else if a == b"loop".as_slice() && b == b"serial".as_slice() {
        Pragma::Serial
    } else if b == b"schedule".as_slice() {
        if a == b"block".as_slice() {
            Pragma::Dealt(Schedule::Block)
        } else if a == b"interleave".as_slice() {
            Pragma::Dealt(Schedule::Interleave)
        } else if a == b"dynamic".as_slice() {
            Pragma::Dealt(Schedule::Dynamic)
        } else {
            Pragma::Other
        }
    } else {
        Pragma::Other
    }
}

#[tactic(auto, unfolding(crate::specs::Said::by_three))]
fn by_three(a: &[u8], b: &[u8], c: &[u8], name: Span) -> Pragma
    ensures { result ≡ by_three a.now b.now c.now name }
{
    if a == b"assert".as_slice() && b == b"nodep".as_slice() {
        Pragma::Nodep(name)
    } else if a == b"assert".as_slice() && b == b"noalias".as_slice() {
        Pragma::Noalias(name)
    } else if a == b"use".as_slice() && c == b"streams".as_slice() {
        streams_of(b)
    } else if a == b"block".as_slice()
        && b == b"dynamic".as_slice()
        && c == b"schedule".as_slice()
    {
        Pragma::Dealt(Schedule::BlockDynamic)
    } else {
        Pragma::Other
    }
}

// What the words from a place on say, behind `mta`.
fn read_words(source: &[u8], text: &[u8], from: Cursor) -> Pragma
    requires { length text.now < 2 ^ 32 }
    ensures { result ≡ by_words source.now (words_from text.now from) }
{
    let first = next_word(text, from);
    let second = next_word(text, first.rest);
    let third = next_word(text, second.rest);
    let fourth = next_word(text, third.rest);
    match (first.word, second.word, third.word, fourth.word) {
        (Some(a), Some(b), None, _) => by_two(a.of(source), b.of(source)),
        (Some(a), Some(b), Some(c), None) => {
            by_three(a.of(source), b.of(source), c.of(source), c)
        }
        _ => Pragma::Other,
    }
}

// What the words from a place on say, behind `#`.
fn read_line(source: &[u8], text: &[u8], from: Cursor) -> Pragma
    requires { length text.now < 2 ^ 32 }
    ensures { result ≡ by_line source.now (words_from text.now from) }
{
    let first = next_word(text, from);
    let second = next_word(text, first.rest);
    match (first.word, second.word) {
        (Some(a), Some(b)) => {
            if a.of(source) == b"pragma".as_slice() && b.of(source) == b"mta".as_slice() {
                read_words(source, text, second.rest)
            } else {
                Pragma::Other
            }
        }
        _ => Pragma::Other,
    }
}

/// What the pragma says that stands at `line` of the source, from its `#` to the end of its line, where a comment may go
/// over several lines. It reads no further than the line, and once.
pub fn read_pragma(source: &[u8], line: Span) -> Pragma
    requires { line.end ≤ length source.now }
    ensures { result ≡ pragma_of source.now line }
{
    let from = Cursor {
        mode: Mode::Text,
        at: line.start as usize + 1,
    };
    read_line(source, &source[..line.end as usize], from)
}
