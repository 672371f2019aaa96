//! What stands at the front of some bytes.

ghost use Rattle.std.specs.Prelude.{◌≡◌, ◌<◌, ◌≤◌, false, length, map, IfSome, MatchOption, ◌∷◌, Some, None};
ghost use Rattle.xc_lex.specs.Front.{close_from, quote_from, is_escape, longest_of, longest_punctuator, is_keyword, word_kind, comment_of, word_of, token_at, byte_at, front_of, rest_front_of, Moves};

use crate::bytes::{
    is_among, is_blank, is_name_char, is_name_start, is_printable, is_source, line_len, name_len,
};
use crate::number::read_number;
use crate::token::TokenKind;

/// What comes first: the end, a line feed, so many bytes of no token, a token of so many bytes, `#`,
/// or something that is none of these.
#[derive(Clone, Copy)]
pub enum Front {
    End,
    LineEnd,
    Blank(usize),
    Whole(TokenKind, usize),
    Hash,
    Bad,
}

const KEYWORDS: [&[u8]; 39] = [
    b"auto",
    b"break",
    b"case",
    b"char",
    b"const",
    b"continue",
    b"default",
    b"do",
    b"double",
    b"else",
    b"enum",
    b"extern",
    b"float",
    b"for",
    b"goto",
    b"if",
    b"inline",
    b"int",
    b"long",
    b"register",
    b"restrict",
    b"return",
    b"short",
    b"signed",
    b"sizeof",
    b"static",
    b"struct",
    b"switch",
    b"typedef",
    b"union",
    b"unsigned",
    b"void",
    b"volatile",
    b"while",
    b"_Bool",
    b"_Complex",
    b"_Imaginary",
    b"sync",
    b"future",
];

const PUNCTUATORS: [&[u8]; 45] = [
    b"[", b"]", b"(", b")", b"{", b"}", b".", b"->", b"++", b"--", b"&", b"*", b"+", b"-", b"~",
    b"!", b"/", b"%", b"<<", b">>", b"<", b">", b"<=", b">=", b"==", b"!=", b"^", b"|", b"&&",
    b"||", b"?", b":", b";", b"=", b"*=", b"/=", b"%=", b"+=", b"-=", b"<<=", b">>=", b"&=", b"^=",
    b"|=", b",",
];

#[tactic(auto, unfolding(crate::specs::Front::is_keyword))]
fn is_keyword(word: &[u8]) -> bool
    ensures { result ≡ is_keyword word.now }
{
    is_among(&KEYWORDS, word)
}

fn word_kind(word: &[u8]) -> TokenKind
    ensures { result ≡ word_kind word.now }
{
    if is_keyword(word) {
        TokenKind::Keyword
    } else {
        TokenKind::Name
    }
}

/// How many bytes there are up to the end of a comment.
fn comment_len(rest: &[u8]) -> Option<usize>
    ensures value { result ≡ close_from 0 rest.now }
    ensures within { IfSome result (λ n. n ≤ length rest.now) }
{
    let mut i = 0;
    'bytes: while i + 1 < rest.len() {
        if rest[i] == b'*' && rest[i + 1] == b'/' {
            return Some(i + 2);
        }
        i += 1;
    }
    None
}

fn is_escape(b: u8) -> bool
    ensures { result ≡ is_escape b }
{
    matches!(b, b'n' | b't' | b'\\' | b'"')
}

/// How many bytes of a string literal there are behind its first quote.
fn quote_len(rest: &[u8]) -> Option<usize>
    ensures value { result ≡ quote_from 0 false rest.now }
    ensures within { IfSome result (λ n. n ≤ length rest.now) }
{
    let mut escaped = false;
    for (i, b) in rest.iter().enumerate() {
        if escaped {
            if !is_escape(*b) {
                return None;
            }
            escaped = false;
        } else if *b == b'"' {
            return Some(i + 1);
        } else if !is_printable(*b) {
            return None;
        } else {
            escaped = *b == b'\\';
        }
    }
    None
}

/// The length of the longest of the texts that stands at the front, or 0.
fn longest_in(table: &[&[u8]], rest: &[u8]) -> usize
    ensures value { result ≡ longest_of (map (λ p. p.now) table.now) rest.now }
    ensures within { result ≤ length rest.now }
{
    let mut best = 0;
    for p in table {
        if rest.starts_with(p) {
            best = p.len().max(best);
        }
    }
    best
}

/// The length of the longest punctuator at the front, or 0.
#[tactic(auto, unfolding(crate::specs::Front::longest_punctuator))]
fn punctuator_len(rest: &[u8]) -> usize
    ensures value { result ≡ longest_punctuator rest.now }
    ensures within { result ≤ length rest.now }
{
    longest_in(&PUNCTUATORS, rest)
}

/// The comment at the front, if there is one.
fn comment_at(rest: &[u8]) -> Option<Front>
    ensures value { result ≡ comment_of rest.now }
    ensures moves { IfSome result (λ front. Moves front (length rest.now)) }
{
    match rest {
        [b'/', b'/', tail @ ..] => Some(Front::Blank(line_len(tail) + 2)),
        [b'/', b'*', tail @ ..] => match comment_len(tail) {
            Some(n) => Some(Front::Blank(n + 2)),
            None => Some(Front::Bad),
        },
        _ => None,
    }
}

/// The word at the front: a name, a keyword or a number.
fn word_at(first: u8, rest: &[u8]) -> Front
    requires { 0 < length rest.now }
    ensures value { result ≡ word_of first rest.now }
    ensures moves { Moves result (length rest.now) }
{
    let n = name_len(&rest[1..]) + 1;
    let word = &rest[..n];
    if is_name_start(first) {
        Front::Whole(word_kind(word), n)
    } else if read_number(word).is_some() {
        Front::Whole(TokenKind::Number, n)
    } else {
        Front::Bad
    }
}

/// What the bytes are that begin no comment.
fn token_at(first: u8, rest: &[u8]) -> Front
    requires { 0 < length rest.now }
    ensures value { result ≡ token_at first rest.now }
    ensures moves { Moves result (length rest.now) }
{
    if is_blank(first) {
        Front::Blank(1)
    } else if is_name_char(first) {
        word_at(first, rest)
    } else {
        match first {
            b'\n' => Front::LineEnd,
            b'#' => Front::Hash,
            b'"' => match quote_len(&rest[1..]) {
                Some(n) => Front::Whole(TokenKind::Text, n + 1),
                None => Front::Bad,
            },
            _ => match punctuator_len(rest) {
                0 => Front::Bad,
                n => Front::Whole(TokenKind::Punctuator, n),
            },
        }
    }
}

/// What comes first in the text.
pub fn front_at(rest: &[u8]) -> Front
    ensures value { result ≡ front_of rest.now }
    ensures moves { Moves result (length rest.now) }
{
    match rest {
        [] => Front::End,
        [first, ..] => match comment_at(rest) {
            Some(front) => front,
            None => token_at(*first, rest),
        },
    }
}

/// What comes first in the rest of an `include` or `pragma` line.
pub fn rest_front_at(rest: &[u8]) -> Front
    ensures value { result ≡ rest_front_of rest.now }
    ensures moves { Moves result (length rest.now) }
{
    match rest {
        [] => Front::End,
        [first, ..] => match comment_at(rest) {
            Some(front) => front,
            None if *first == b'\n' => Front::LineEnd,
            None if is_source(*first) => Front::Blank(1),
            None => Front::Bad,
        },
    }
}
