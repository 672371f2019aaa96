//! The words of a directive's line.

ghost use Rattle.std.specs.Prelude.{◌≡◌, ℕ, ◌<◌, ◌≤◌, ◌+◌, ◌^◌, ◌∷◌, true, false, length, drop, get_or, slice_get, Some};
ghost use Rattle.xc_type_pragmas.specs.declared.words.Mode.TheVariants.{Text};
ghost use Rattle.xc_type_pragmas.specs.Words.{is_next, mode_after, is_apart, word_at, words_in, words_from, with_word};
ghost use Rattle.xc_lex.specs.Bytes.{is_blank};

use xc_lex::is_blank;
use xc_text_place::Span;

/// Where a byte of a line stands.
#[derive(Clone, Copy, PartialEq, Eq)]
pub enum Mode {
    /// Outside comments.
    Text,
    /// In a comment up to the line's end.
    Line,
    /// At the `*` of `/*`.
    Opening,
    /// In a comment behind that.
    Comment,
    /// At the `/` of `*/`.
    Closing,
}

/// A place between words.
#[derive(Clone, Copy, PartialEq, Eq)]
pub struct Cursor {
    pub mode: Mode,
    pub at: usize,
}

/// The next word, if there is one, and the place behind it.
#[derive(Clone, Copy, PartialEq, Eq)]
pub struct Next {
    pub word: Option<Span>,
    pub rest: Cursor,
}

fn is_next(c: u8, next: Option<u8>) -> bool
    ensures { result ≡ is_next c next }
{
    match next {
        None => false,
        Some(b) => b == c,
    }
}

#[tactic(auto, unfolding(crate::specs::Words::mode_after))]
fn mode_after(mode: Mode, b: u8, next: Option<u8>) -> Mode
    ensures { result ≡ mode_after mode b next }
{
    match mode {
        Mode::Text => {
            if b == b'/' && is_next(b'/', next) {
                Mode::Line
            } else if b == b'/' && is_next(b'*', next) {
                Mode::Opening
            } else {
                Mode::Text
            }
        }
        Mode::Line => Mode::Line,
        Mode::Opening => Mode::Comment,
        Mode::Comment => {
            if b == b'*' && is_next(b'/', next) {
                Mode::Closing
            } else {
                Mode::Comment
            }
        }
        Mode::Closing => Mode::Text,
    }
}

#[tactic(auto, unfolding(crate::specs::Words::is_apart))]
fn is_apart(mode: Mode, b: u8, next: Option<u8>) -> bool
    ensures { result ≡ is_apart mode b next }
{
    match mode {
        Mode::Text => is_blank(b) || (b == b'/' && (is_next(b'/', next) || is_next(b'*', next))),
        _ => true,
    }
}

// Whether the byte at a place is a blank or one of a comment.
fn is_apart_at(text: &[u8], mode: Mode, at: usize) -> bool
    requires { at < length text.now }
    ensures { result ≡ is_apart mode (get_or text.now at 0) (slice_get text.now (at + 1)) }
{
    is_apart(mode, text[at], text.get(at + 1).copied())
}

// Where the byte behind a place stands.
fn mode_behind(text: &[u8], mode: Mode, at: usize) -> Mode
    requires { at < length text.now }
    ensures { result ≡ mode_after mode (get_or text.now at 0) (slice_get text.now (at + 1)) }
{
    mode_after(mode, text[at], text.get(at + 1).copied())
}

/// Skips blanks and comments, up to the first byte of a word or the end.
#[tactic(auto, using(crate::proofs::Spelling::reads))]
fn skip(text: &[u8], from: Cursor) -> Cursor
    ensures same { words_from text.now result ≡ words_from text.now from }
    ensures after { from.at ≤ result.at }
    ensures word { result.at < length text.now → is_apart result.mode (get_or text.now result.at 0) (slice_get text.now (result.at + 1)) ≡ false }
{
    let mut mode = from.mode;
    let mut at = from.at;
    'bytes: while at < text.len() {
        if !is_apart_at(text, mode, at) {
            break;
        }
        mode = mode_behind(text, mode, at);
        at += 1;
    }
    Cursor { mode, at }
}

/// The end of the word that goes on at a place.
#[tactic(auto, using(crate::proofs::Spelling::reads))]
fn word_end(text: &[u8], start: usize, from: usize) -> usize
    requires { from ≤ length text.now }
    ensures same { words_in Text (Some start) result (drop result text.now) ≡ words_in Text (Some start) from (drop from text.now) }
    ensures after { from ≤ result }
    ensures within { result ≤ length text.now }
    ensures apart { result < length text.now → is_apart Text (get_or text.now result 0) (slice_get text.now (result + 1)) ≡ true }
{
    let mut at = from;
    'bytes: while at < text.len() {
        if is_apart_at(text, Mode::Text, at) {
            break;
        }
        at += 1;
    }
    at
}

/// Where a line goes on behind a word that ends at a place.
#[tactic(auto, using(crate::proofs::Spelling::reads))]
fn behind(text: &[u8], end: usize) -> Cursor
    requires within { end ≤ length text.now }
    requires apart { end < length text.now → is_apart Text (get_or text.now end 0) (slice_get text.now (end + 1)) ≡ true }
    ensures { (start : ℕ) → words_in Text (Some start) end (drop end text.now) ≡ word_at start end ∷ words_from text.now result }
{
    if end < text.len() {
        Cursor {
            mode: mode_behind(text, Mode::Text, end),
            at: end + 1,
        }
    } else {
        Cursor {
            mode: Mode::Text,
            at: end,
        }
    }
}

/// The next word of a text.
#[tactic(auto, using(crate::proofs::Spelling::reads))]
pub fn next_word(text: &[u8], from: Cursor) -> Next
    requires { length text.now < 2 ^ 32 }
    ensures words { words_from text.now from ≡ with_word result.word (words_from text.now result.rest) }
{
    let Cursor { mode, at } = skip(text, from);
    if at >= text.len() {
        return Next {
            word: None,
            rest: Cursor { mode, at },
        };
    }
    let end = word_end(text, at, at + 1);
    Next {
        word: Some(Span {
            start: at as u32,
            end: end as u32,
        }),
        rest: behind(text, end),
    }
}
