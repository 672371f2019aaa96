//! Tokens.

use xc_text_place::Span;

/// What a token is.
#[derive(Clone, Copy, PartialEq, Eq)]
pub enum TokenKind {
    Name,
    Keyword,
    Number,
    Text,
    Punctuator,
    Pragma,
}

/// A token. Its text is a slice of the source; it stands at `at`, where a macro's name may be in its place.
#[derive(Clone, Copy)]
pub struct Token {
    pub kind: TokenKind,
    pub text: Span,
    pub at: Span,
}
